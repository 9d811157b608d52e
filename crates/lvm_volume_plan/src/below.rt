//! What is passed on from the crates below.

pub use lvm_core::below::Patience;
pub use lvm_core::{CommandDriver, CommitFault, Prepared};
