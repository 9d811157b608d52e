//! Passed on from `lvm_volumes`.

pub use lvm_range_lines::below::mirrors::{mklvcopy, rmlvcopy};
