mod disk;
mod fixtures;
mod image;
mod lane;
mod trial;
