//! A session of a group beside its shelf: what it has, how the copies of its volumes stand, what each
//! request is told, and which event comes first; what each event makes of it and its shelf; what holds of
//! it at every moment, and how much work is left in it; and its end, where what is open lands and what is
//! in hand goes back.
#![tactic(auto)]

mod answers;
pub mod below;
mod bringing;
mod ends;
mod event;
mod flown;
mod landings;
mod laws;
mod open;
mod orders;
mod origin;
mod session;

pub use answers::{AskFault, CopyFault, CopyState, OpenFault, Taken, Turned};
pub use bringing::{CopyEnd, OpenCopy, Step};
pub use ends::{darken, go_off};
pub use event::Event;
pub use flown::{Flown, Owner};
pub use landings::give_back;
pub use laws::{
    admission_marks, answers_are_told, beginnings_are_sound, blame_needs_faults, busy_is_sound,
    commit_lowers_work, copies_are_sound, darkness_keeps_notes, flying_writes_are_sound,
    held_writes_are_sound, moves_are_sound, reads_may_lag, standing_still_is_unsound,
    unpinned_writes_move, unsettled_is_fresh, waiting_writes_pin, writes_go_along,
};
pub use open::{Open, Power};
pub use orders::arranged;
pub use origin::Origin;
pub use session::Session;
