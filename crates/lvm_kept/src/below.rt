//! What is passed on from the crates below.

pub use lvm_rec::{
    Found, Homes, Kind, Latest, Note, frame, newest, read_note, read_slot, slot_sectors, write_note,
};
pub use lvm_vol::Outcome;
