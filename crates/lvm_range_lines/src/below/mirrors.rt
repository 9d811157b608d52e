//! Passed on from `lvm_volumes`.

pub use lvm_group_lines::below::mirrors::{mklvcopy, rmlvcopy};
