//! What stands against members' leaving a group, and the descriptors by which they leave it.
#![tactic(auto)]

mod descriptors;
mod fault;
mod judging;
mod steps;

pub use descriptors::{is_first, is_in, is_used, with_even, without_members};
pub use fault::ReduceFault;
pub use judging::{check, few_votes};
pub use steps::{StepsOut, steps_out};
