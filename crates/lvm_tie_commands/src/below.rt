//! What is passed on from the crates below.

pub mod driver;
pub mod earlier;
pub mod handover;
pub mod members;
pub mod mirrors;
pub mod ranges;
pub mod split;
pub mod volumes;

pub use lvm_handover::below::{Post, end_posts};
