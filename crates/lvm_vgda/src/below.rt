//! What is passed on from the crates below.

pub use lvm_fields::{Fault, Unread, all, behind, u16_at};
