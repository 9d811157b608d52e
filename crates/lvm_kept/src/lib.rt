//! What crash images keep of a history, and the moments of a run at which they keep it.
#![tactic(auto)]

pub mod below;
mod laws;

pub use laws::{
    blank_is_kept, changes_keep, entries_keep, one_group_is_only, parts_stand, places,
    quorums_find, record_writes, records_are_committed, stamps_rise, worked_groups, writes_show,
    writing,
};
