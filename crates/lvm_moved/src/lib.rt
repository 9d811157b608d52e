//! The descriptor of a group in which a copy stands on another partition.
#![tactic(auto)]

pub mod laws;
mod moved;

pub use moved::moved_descriptor;
