//! What is passed on from the crates below.

pub mod driver;
pub mod stage;
