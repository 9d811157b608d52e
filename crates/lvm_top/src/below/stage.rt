//! Passed on from `lvm_group_lines`.

pub use lvm_line::below::stage::{Holder, Refusal, Reply, Stage, take_rooms};
