//! Passed on from `lvm_group_lines`.

pub use lvm_volume_lines::below::stage::{
    Holder, Refusal, Reply, Stage, memory_text, refusal_line, take_rooms,
};
