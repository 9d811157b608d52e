//! Volumes in mode passive: their dirty marks go once their usable copies are even, and a group that has them is
//! recovered.
#![tactic(auto)]

mod laws;

pub use laws::{cleaned_is_marking, cleaning_stays_kept, quiet_is_even, recovered_by_cleaning};
