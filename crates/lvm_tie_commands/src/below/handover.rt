//! Passed on from `lvm_handover`.

pub use lvm_handover::{serve, settle};
