//! In which order the policies of a volume read its copies and write its targets.
#![tactic(auto)]

pub mod below;
mod reads;
mod writes;

pub use reads::read_order;
pub use writes::{TargetState, write_next};
