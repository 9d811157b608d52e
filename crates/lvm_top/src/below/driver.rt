//! Passed on from `lvm_driver`.

pub use lvm_line::below::driver::Driver;
