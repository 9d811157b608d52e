//! Each event of a session keeps it sound; and sessions in which disks have failed, written out.
#![tactic(auto)]

pub mod below;
mod faulted_laws;
mod laws;

pub use faulted_laws::{
    carried_writes_are_unsound, ended_sessions_are_sound, failed_copies_are_sound,
    failed_reads_are_sound, kept_writes_are_sound, lost_votes_are_sound, lost_writes_are_sound,
    missing_disks_are_sound, unsettled_writes_are_sound, whole_copies_are_sound,
    writes_without_copy_are_sound,
};
pub use laws::{
    beginning_is_sound, close_keeps, copy_read_falls, copy_read_keeps, cut_keeps,
    first_start_is_noted, first_start_is_whole, landing_falls, landing_is_caused, left_is_bounded,
    loss_is_caused, note_start_falls, note_start_keeps, off_keeps, order_keeps,
    over_leaves_nothing, pin_falls, pin_keeps, take_keeps, wait_keeps,
};
