//! Passed on from `lvm_split`.

pub use lvm_range_lines::below::split::split;
