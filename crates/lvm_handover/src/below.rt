//! What is passed on from the crates below.

pub mod driver;
pub mod ranges;
pub mod volumes;

pub use lvm_core::CommandDriver;
pub use lvm_ranges::below::{Post, end_posts};
