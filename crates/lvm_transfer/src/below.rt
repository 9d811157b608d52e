//! What is passed on from the crates below.

pub use lvm_disk::Shelf;
pub use lvm_kept::below::{
    Found, Homes, Kind, Latest, Note, frame, newest, read_note, read_slot, slot_sectors, write_note,
};
