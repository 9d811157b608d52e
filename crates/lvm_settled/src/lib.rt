//! A settled session of a driver, in the driver's own words: when its state is good.
#![tactic(auto)]

mod laws;

pub use laws::{
    cache_is_seen, good_is_settled, none_left_is_behind, pairs_have_notes_home, pairs_settle,
    settled_is_good,
};
