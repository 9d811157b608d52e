//! Passed on from `lvm_volumes`.

pub use lvm_handover::below::volumes::{GroupFault, mklv, rmlv};
