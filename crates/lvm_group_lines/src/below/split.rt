//! Passed on from `lvm_split`.

pub use lvm_tie_commands::below::split::split;
