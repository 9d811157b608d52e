//! A session turns to the next descriptor of its group, by which that has the same members, or one less.
#![tactic(auto)]

mod change;
mod turning;

pub use change::{Change, Leaving, make_change, turn_group};
