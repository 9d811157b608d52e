//! Groups, statuses and stale tables, built of the rows of numbers that tests state.
#![tactic(auto)]

mod groups;

pub use groups::{Member, Volume, group, members, status, table, volume};
