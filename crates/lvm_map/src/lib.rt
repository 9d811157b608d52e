//! Where the blocks of volumes stand on the disks of a group, and where new copies are put.
#![tactic(auto)]

mod fit;
mod free_partitions;
pub mod laws;
mod places;

pub use fit::{MapFault, allocate, allocate_more};
pub use places::{blocks, place};
