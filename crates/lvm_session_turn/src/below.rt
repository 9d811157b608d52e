//! What is passed on from the crates below.

pub use lvm_calls::below::is_whole;
pub use lvm_calls::{end_copy, leave_if_inside, review};
pub use lvm_moves::below::{Due, is_running};
