//! What is passed on from the crates below.

pub mod disk_lines;
pub mod driver;
pub mod group_lines;
pub mod members;
pub mod mirrors;
pub mod range_lines;
pub mod split;
pub mod stage;

pub use lvm_range_lines::below::Post;
pub use lvm_range_lines::below::volumes::GroupFault;
