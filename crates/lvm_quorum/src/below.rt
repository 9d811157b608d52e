//! What is passed on from the crates below.

pub use lvm_transfer::below::{Homes, Note, Shelf, frame, read_note, slot_sectors, write_note};
pub use lvm_transfer::{Moved, Patience, Stop, Unread, transfer};
pub use lvm_vgsa::encode_into;
