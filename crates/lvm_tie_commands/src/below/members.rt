//! Passed on from `lvm_members`.

pub use lvm_members::{Changed, RuleFault, make_big, set_quorum};
