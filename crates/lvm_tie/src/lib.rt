//! By what relation a session of the driver, with its shelf, is a good state of the induction: as it
//! begins, by each turn and call, from one moment of it to a later one, and at rest. Copies that are fresh
//! hold one value, and so do those that a resync has made fresh. Worked sessions are tied.
#![tactic(auto)]

mod begins_laws;
mod calls_laws;
mod causes_laws;
mod ends_laws;
mod lands_laws;
mod laws;
mod notes_laws;
mod over_laws;
mod records_laws;
mod requests_laws;
mod rests;
mod reviews_laws;
mod running_laws;
mod spares_laws;
mod stamps_laws;
mod starts_laws;
mod statuses_laws;
mod steps_laws;
mod synced_laws;
mod tied_laws;
mod turn_laws;
mod writes_laws;

pub use begins_laws::{begins_good, begins_tied, rest_spares, rest_ties, tied_rests};
pub use calls_laws::{close_ties, open_move_ties, open_ties};
pub use causes_laws::{
    beginning_has_causes, calls_keep_causes, causes_are_seen, faults_are_there, turn_keeps_causes,
};
pub use ends_laws::read_end_ties;
pub use lands_laws::{land_ties, take_ties};
pub use laws::good_sessions;
pub use notes_laws::note_end_ties;
pub use over_laws::{orders_tie, sessions_end, takes_go_on};
pub use records_laws::{note_start_ties, status_start_ties};
pub use requests_laws::{admit_ties, pin_ties, submit_ties};
pub use rests::pairs_are_tied;
pub use reviews_laws::{near_ties, review_is_wanted};
pub use running_laws::{calls_run_on, runs_join, turns_run_on};
pub use spares_laws::{descriptors_are_spared, transfers_leave_descriptors};
pub use stamps_laws::{crashes_leave_before, moments_stay};
pub use starts_laws::{copy_starts_tie, data_start_ties};
pub use statuses_laws::status_end_ties;
pub use steps_laws::{
    copy_end_ties, copy_group_ties, copy_miss_ties, copy_quit_ties, copy_read_end_ties,
    copy_write_fail_ties,
};
pub use synced_laws::live_agree;
pub use tied_laws::{
    admitted_are_tied, beginnings_are_tied, updating_is_tied, waiting_are_tied, writing_is_tied,
};
pub use turn_laws::{calls_go_on, turns_go_on};
pub use writes_laws::{data_end_ties, write_end_ties};
