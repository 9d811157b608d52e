//! The calls of a client of a session: requests that are submitted and answers that are taken, copies that
//! are opened and closed. What the end of a transfer, or a change of what is missing or committed, entails
//! for the copy that is open, and of which copies staleness is wanted once a write has ended.
#![tactic(auto)]

mod answer;
mod ask;
mod begin;
mod behind;
pub mod below;
mod copy;
mod due;
mod ending;
mod entailed;
mod enter;
mod faults;
mod hits;
mod judged;
mod marking;
mod moving;
mod numbers;
mod open;
mod opened;
mod steps;
mod submit;
mod wanted;

pub use answer::take;
pub use ask::{ask_fault, has_numbers};
pub use copy::{close_copy, copy_fault, copy_state};
pub use due::{Due, due_at, mark_due};
pub use ending::{end_copy, end_copy_if, leave_if_inside};
pub use entailed::entail;
pub use enter::{enter_step, step_place};
pub use moving::move_fault;
pub use numbers::next_id;
pub use open::{open_copy, open_move};
pub use steps::review;
pub use submit::submit_request;
pub use wanted::want_stale;
