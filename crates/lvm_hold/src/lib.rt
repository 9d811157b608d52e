//! Which requests wait, and for which: one waits while an earlier one that conflicts with it is inside.
#![tactic(auto)]

mod chains;
mod queue;
mod tail;

pub use queue::{Held, Queue, Row};
