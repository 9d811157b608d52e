//! Passed on from `lvm_ranges`.

pub use lvm_ranges::{
    AskRangeFault, Stuck, ask_range, await_range, finish_range, read_blocks, step, take_range,
};
