//! Passed on from `lvm_driver`.

pub use lvm_range_lines::below::driver::Driver;
