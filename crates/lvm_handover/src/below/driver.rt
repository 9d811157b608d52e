//! Passed on from `lvm_driver`.

pub use lvm_ranges::below::driver::{Closed, Driver};
