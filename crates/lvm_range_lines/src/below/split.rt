//! Passed on from `lvm_split`.

pub use lvm_group_lines::below::split::split;
