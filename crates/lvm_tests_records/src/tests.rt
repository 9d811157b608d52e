mod fixtures;
mod map;
mod num;
mod rec;
mod vgda;
mod vgsa;
mod word;
