//! Passed on from `lvm_members`.

pub use lvm_group_lines::below::members::{Changed, RuleFault, make_big, set_quorum};
