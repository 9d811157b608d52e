//! Passed on from `lvm_volumes`.

pub use lvm_tie_commands::below::volumes::{GroupFault, mklv, rmlv};
