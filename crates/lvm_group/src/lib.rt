//! The making of groups: what stands against it, the size of their partitions, their first records, and the
//! memory of their sessions.
#![tactic(auto)]

pub mod below;
mod checks;
mod judge;
mod look;
mod make;
mod making;
mod plan;
mod write;

pub use checks::size_to_begin;
pub use making::mkvg;
pub use plan::Plan;
