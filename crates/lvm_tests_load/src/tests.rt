mod disks;
mod files;
mod loads;
mod outside;
