//! A group that is varied on, over its shelf: what clients ask of it, and the turns that do it.
#![tactic(auto)]

pub mod below;
mod commits;
mod drain;
mod driver;
mod dues;
pub mod laws;
mod moves;
mod shown;
mod sound;

pub use driver::Driver;
pub use shown::Lent;
