//! Which stamps stand on the disks of a shelf, and what the steps of commands keep: requests on disks, the
//! making of a group, its varying on, and changes of its descriptor.
#![tactic(auto)]

mod laws;
mod stamps;

pub use laws::{
    descriptor_is_committed, disk_entries_keep, disks_stay_in_no_group, entries_go_on,
    group_is_made, group_is_varied_on, groups_may_be_made, groups_may_vary_on, raw_reads_keep,
    raw_writes_keep, records_stay_writable, runs_follow, spans_grow, volume_entries_go_on,
    volume_entries_keep, worked_making, worked_session, writes_leave_only,
};
pub use stamps::{
    blank_is_behind, clock_stays_ahead, crashes_keep_before, later_is_after_too,
    later_is_later_too, later_may_go, shelves_stay_behind, writes_keep_before,
};
