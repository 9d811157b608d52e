//! What is passed on from the crates below.

pub use lvm_quorum::below::{Moved, Patience, encode_into, transfer};
