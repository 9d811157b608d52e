//! What is passed on from the crates below.

pub use lvm_core::{Closed, CommandDriver};
