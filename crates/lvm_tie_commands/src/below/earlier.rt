//! Passed on from `lvm_handover`.

pub use lvm_handover::take_earlier;
