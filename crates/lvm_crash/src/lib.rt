//! What a loss of power leaves of a group keeps the history of its session. Whose transfers are out of a
//! session, seen without their bytes, and what each of their ends leaves on the media.
#![tactic(auto)]

mod ends_laws;
mod laws;

pub use ends_laws::{owners_have_out, places_of_copies, records_end, steps_end, writes_end};
pub use laws::{
    committed_is_found, crash_images_are_kept, crash_images_remain, description_lasts,
    ends_are_kept, sessions_match, what_remains_is_kept,
};
