//! The commits of a session: what its disks show between two of them, and how a status or a descriptor becomes committed.
#![tactic(auto)]

pub mod below;
mod commit;
mod laws;
mod write;

pub use commit::{CommitEnd, commit_descriptor, commit_status};
pub use laws::{
    committed_is_found, data_keeps_committed, descriptor_is_committed, entries_of_volumes_go_on,
    next_is_later, nothing_else_is_found, only_group_stays, session_begins, status_follows,
    volume_is_found, volume_may_be_committed, writes_are_held,
};
pub use write::is_committed;
