//! The records that a disk has below its data, sector by sector, and to which slot the next one goes.
#![tactic(auto)]

mod frames;
mod homes;
mod latest;
mod laws;
mod notes;
mod numbers;

pub use frames::{frame, read_slot, slot_sectors};
pub use homes::Homes;
pub use latest::{Found, Latest, newest};
pub use laws::{frames_are_read, later_stamps, newest_stays_or_is_new, note_stays_or_is_new};
pub use lvm_num::{Framed, Kind, NoteEntry};
pub use notes::{Note, read_note, write_note};
