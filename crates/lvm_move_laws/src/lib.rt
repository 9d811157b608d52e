//! Laws over a session with requests open whose copy has moved: the descriptor may be committed in which it stands on its
//! destination, each crash image is kept meanwhile, and the group stands by it afterwards.
#![tactic(auto)]

mod laws;

pub use laws::{move_serves, move_stays_kept, moved_is_described, next_stands};
