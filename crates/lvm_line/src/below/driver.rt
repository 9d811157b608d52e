//! Passed on from `lvm_driver`.

pub use lvm_volume_lines::below::driver::Driver;
