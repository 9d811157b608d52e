//! A shelf of disks: transfers that start and end, disks that fail, and power that may be cut at any
//! call.
#![tactic(auto)]

pub mod below;
pub mod laws;
mod shelf;

pub use shelf::{Arrange, Reaped, Shelf, Started};
