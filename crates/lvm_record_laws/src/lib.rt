//! Laws over what a group is and over what its records say: votes, newest records, torn writes, worked bytes.
#![tactic(auto)]

mod laws;

pub use laws::{
    more_votes_suffice, new_stamps, newest, notes_are_exact, quorums_meet, records_are_exact,
    torn_writes, worked_descriptor, worked_numbers, worked_sectors, worked_status_versions,
    worked_volume,
};
