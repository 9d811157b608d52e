//! What is passed on from the crates below.

pub use lvm_core::Closed;
pub use lvm_due::below::partition_blocks;
