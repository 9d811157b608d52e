//! Passed on from `lvm_volumes`.

pub use lvm_volumes::{mklvcopy, rmlvcopy};
