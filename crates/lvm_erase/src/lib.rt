//! A disk that has left a group loses the descriptor that it shows.
#![tactic(auto)]

mod erase;
mod laws;

pub use erase::erase_descriptor;
pub use laws::newest_is_shown_or_none;
