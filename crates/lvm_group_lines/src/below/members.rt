//! Passed on from `lvm_members`.

pub use lvm_tie_commands::below::members::{Changed, RuleFault, make_big, set_quorum};
