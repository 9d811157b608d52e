//! The commit of a move: the descriptor is written in which the copy that has moved stands on its destination.
#![tactic(auto)]

mod commit;

pub use commit::commit_move;
