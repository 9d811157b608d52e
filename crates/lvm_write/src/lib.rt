//! How records are written to disks: to which slot each next one goes, and what is written of it. The
//! records with which a group comes on are written here, and its next status is made, by the one that was
//! found and by which members answer.
#![tactic(auto)]

mod begin;
mod begin_laws;
pub mod below;
mod homes;
mod laws;
mod next;
mod notes;
mod write;

pub use begin::{Begun, begin_again, begin_new, forget_notes, put_record};
pub use begin_laws::{
    beginning_is_found, beginning_is_shown, homes_spare_newest, writes_are_of_records,
};
pub use homes::homes_of;
pub use laws::{records_are_old_or_new, records_may_be_written, written_is_newest};
pub use next::next_status;
pub use notes::empty_notes;
pub use write::{Wrote, write_record};
