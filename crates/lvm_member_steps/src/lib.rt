//! One step of a group that is on, on its way to fewer members.
#![tactic(auto)]

mod stepping;

pub use stepping::step;
