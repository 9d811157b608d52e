//! Passed on from `lvm_group_lines`.

pub use lvm_group_lines::{do_arrange, do_cut, do_read, do_write};
