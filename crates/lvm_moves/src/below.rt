//! What is passed on from the crates below.

pub use lvm_due::below::{group_of, is_running};
pub use lvm_due::{Due, first_start, is_lost, is_quiet_for};
pub use lvm_session::{arranged, darken, give_back, go_off};
