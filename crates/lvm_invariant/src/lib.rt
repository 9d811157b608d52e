//! What is always true of a session of a volume group, that each event keeps it, and why disks are missing, copies stale and
//! requests failed: only by faults of disks.
#![tactic(auto)]

mod causes;
mod laws;

pub use causes::{
    causes_are_met, cut_is_caused, each_event_keeps_causes, each_moment_is_caused,
    going_off_is_caused,
};
pub use laws::{
    answer_is_taken, answers_after_the_end, conditions_are_needed, copy_is_cleared,
    copy_is_written, copy_opens, each_event_keeps_good, each_moment_is_kept, entry_is_pinned,
    first_is_good, fresh_copies_and_names_are_needed, group_goes_off, no_copy_is_fresh, note_ends,
    note_starts, power_is_cut, quorum_finds, read_failed, read_goes_on, read_has_got,
    request_begins, request_is_admitted, sessions_are_met, staleness_is_wanted, status_moves,
    step_ends, step_enters, update_begins, update_ends, update_is_committed, write_goes_on,
    write_is_done, write_is_lost, write_starts,
};
