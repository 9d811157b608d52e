//! What is passed on from the crates below.

pub use lvm_core::{Cause, CommandDriver, Parts, Refused, Room};
pub use lvm_recovery::equalise;
