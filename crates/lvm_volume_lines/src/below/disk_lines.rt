//! Passed on from `lvm_group_lines`.

pub use lvm_range_lines::below::disk_lines::{do_arrange, do_cut, do_read, do_write};
