//! Passed on from `lvm_handover`.

pub use lvm_group_lines::below::handover::{serve, settle};
