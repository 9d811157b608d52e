//! Laws over the commit of a move: a session that is written out meets all that they ask for.
#![tactic(auto)]

mod laws;

pub use laws::moves_are_tied;
