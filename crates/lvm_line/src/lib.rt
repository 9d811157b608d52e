//! What one line of a script asks for, and what it does to a shelf or to the session of the group that is on.
#![tactic(auto)]

pub mod below;
mod laws;
mod line;

pub use laws::{lines_are_complete, posts_end_for_causes, refusals_have_causes, varyons_restate};
pub use line::{InPlace, answer_line, do_line, finish_line};
