//! Passed on from `lvm_driver`.

pub use lvm_handover::below::driver::{Closed, Driver};
