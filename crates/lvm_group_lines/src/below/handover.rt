//! Passed on from `lvm_handover`.

pub use lvm_tie_commands::below::handover::{serve, settle};
