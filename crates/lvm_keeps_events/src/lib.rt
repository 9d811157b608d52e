//! Laws: each event of a turn and each call of a client keep a session sound, and a turn's events leave
//! less work; what a turn's answer tells; by what a turn makes disks missing, copies stale, and loses the
//! votes.
#![tactic(auto)]

pub mod below;
mod calls_laws;
mod data_falls_laws;
mod data_laws;
mod ends_laws;
mod group_laws;
mod laws;
mod losses_laws;
mod marks;
mod marks_laws;
mod moves_laws;
mod opens;
mod starts_laws;
mod status_laws;
mod tells;
mod turn_laws;
mod uncaught_laws;

pub use calls_laws::submit_keeps;
pub use data_falls_laws::{
    copy_quit_falls, copy_read_end_falls, copy_read_fail_falls, copy_write_end_falls,
    copy_write_fail_falls, data_end_falls,
};
pub use data_laws::data_end_keeps;
pub use ends_laws::{
    copy_quit_keeps, copy_read_end_keeps, copy_read_fail_keeps, copy_write_fail_keeps, counts_keep,
    note_end_keeps,
};
pub use group_laws::copy_write_end_keeps;
pub use laws::{events_fall, events_keep, missed_writes_wait, never_stands_still};
pub use losses_laws::{losses_join, turns_lose_by_faults, votes_go_by_faults};
pub use marks::turns_mark;
pub use marks_laws::{copy_ends_keep_requests, marks_keep_requests};
pub use moves_laws::{admission_falls, admission_keeps, landing_keeps};
pub use opens::{open_keeps, open_move_keeps, seen_open_keeps};
pub use starts_laws::{
    copy_write_falls, copy_write_keeps, data_start_falls, data_start_keeps, status_start_falls,
    status_start_keeps,
};
pub use status_laws::{
    note_end_falls, note_fail_falls, note_fail_keeps, status_end_falls, status_end_keeps,
};
pub use tells::{counts_never_fall, reads_get_theirs, room_stays, turns_tell};
pub use turn_laws::{ends_fall, ends_keep, turn_ends, turn_falls, turn_keeps};
pub use uncaught_laws::lost_is_uncaught;
