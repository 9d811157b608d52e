//! The commands by which a group that is on changes its rule of votes, its size or which of its members are spares, while its members stay.
#![tactic(auto)]

mod fault;
pub mod laws;
mod plan;
mod rules;
mod spare;

pub use fault::RuleFault;
pub use rules::{Changed, make_big, set_quorum};
pub use spare::{Marked, SpareFault, set_spare};
