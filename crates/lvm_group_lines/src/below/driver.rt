//! Passed on from `lvm_driver`.

pub use lvm_tie_commands::below::driver::Driver;
