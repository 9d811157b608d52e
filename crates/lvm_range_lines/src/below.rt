//! What is passed on from the crates below.

pub mod disk_lines;
pub mod driver;
pub mod group_lines;
pub mod handover;
pub mod members;
pub mod mirrors;
pub mod split;
pub mod stage;
pub mod volumes;

pub use lvm_posts::Post;
