//! What is passed on from the crates below.

pub use lvm_raw::piece_end;
