//! Laws of a session in which the descriptor of a move is committed: requests that wait stand in it as before, and it stays
//! sound.
#![tactic(auto)]

mod laws;

pub use laws::{
    done_is_judged, drained_moves_may_be_committed, move_keeps_sound, moved_has_moved,
    moves_may_be_committed, stuck_move_is_sound, stuck_sessions_may_wait, waiting_stays,
};
