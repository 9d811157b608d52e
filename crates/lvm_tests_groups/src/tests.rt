mod choice;
mod commit;
mod disks;
mod epochs;
mod fixtures;
mod members;
mod survey;
mod write;
