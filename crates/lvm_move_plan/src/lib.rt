//! Which copies leave a disk of a group for another one, and to which of its partitions each of them moves.
#![tactic(auto)]

mod free;
pub mod laws;
mod plan;
mod standing;

pub use free::{free_on, lowest_free};
pub use plan::{PlanFault, PlannedMove, plan_moves, stands_beside};
pub use standing::{VolumeCopy, is_listed, standing_among, standing_on};
