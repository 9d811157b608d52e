//! Passed on from `lvm_driver`.

pub use lvm_group_lines::below::driver::Driver;
