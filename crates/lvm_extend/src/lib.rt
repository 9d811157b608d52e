//! A group takes in members.
#![tactic(auto)]

mod admission;
mod joining;
mod spreading;

pub use admission::{Admitted, admit};
pub use joining::{JoinEnd, make_join};
pub use spreading::spread;
