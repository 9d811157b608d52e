//! Passed on from `lvm_split`.

pub use lvm_split::split;
