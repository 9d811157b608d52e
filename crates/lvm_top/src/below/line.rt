//! Passed on from `lvm_line`.

pub use lvm_line::do_line;
