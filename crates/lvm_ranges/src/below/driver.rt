//! Passed on from `lvm_driver`.

pub use lvm_driver::Driver;
pub use lvm_driver::below::Closed;
