//! What is passed on from the crates below.

pub mod driver;
pub mod earlier;
pub mod handover;
pub mod members;
pub mod mirrors;
pub mod quiesce;
pub mod ranges;
pub mod split;
pub mod volumes;

pub use lvm_core::{CommandDriver, number_of};
pub use lvm_quiesce::below::Closed;
