//! Passed on from `lvm_group_lines`.

pub use lvm_range_lines::below::stage::{
    Answered, Holder, Refusal, Reply, Stage, memory_text, refusal_line, take_rooms,
};
