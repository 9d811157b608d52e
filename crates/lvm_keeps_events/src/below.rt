//! What is passed on from the crates below.

pub use lvm_calls::{
    close_copy, copy_state, move_fault, open_copy, open_move, submit_request, take,
};
