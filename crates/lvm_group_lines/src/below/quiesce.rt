//! Passed on from `lvm_quiesce`.

pub use lvm_quiesce::{mkvg, read_disk, varyon, write_disk};
