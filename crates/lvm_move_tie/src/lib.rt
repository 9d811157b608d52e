//! Laws over the commit of a move: a good session whose move is done goes on over it, whatever it answers, and each
//! moment on the way is kept.
#![tactic(auto)]

mod laws;

pub use laws::{
    drained_takes_place, move_goes_on, move_ties, moved_moves_in, places_may_be_taken,
    restating_keeps,
};
