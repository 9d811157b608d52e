//! Passed on from `lvm_group_lines`.

pub use lvm_group_lines::{
    Answered, Holder, Refusal, Reply, Stage, memory_text, refusal_line, take_rooms,
};
