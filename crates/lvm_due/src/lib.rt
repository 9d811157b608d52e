//! How the copies of a logical partition stand in a session (fresh, usable, sure or caught up with), what a
//! request is told by it, and what it does next. Which events of a turn are due, kept from event to event by
//! their places in the table of requests; which of each kind comes first, and which transfer is started
//! first. How much work is left in a session.
#![tactic(auto)]

pub mod below;
mod copy;
mod due;
mod facts;
mod facts_places;
mod first_transfer;
mod firsts;
mod held;
mod judged;
mod laws;
mod making;
mod moved;
mod next;
mod notes;
mod pending;
mod phases;
mod pinned;
mod places;
mod quiet;
mod requests;
mod source;
mod span;
mod standing;
mod starts;
mod status;
mod work;
mod work_left_status;
mod writes;

pub use due::Due;
pub use facts::{has_names, has_usable, is_changed, is_unbegun, next_of};
pub use facts_places::{copies_beside, copies_in, is_pp, partition_blocks};
pub use first_transfer::first_start;
pub use firsts::{first_admission, first_data, first_landing};
pub use held::{held_of, is_held_back};
pub use judged::{counts_failed, is_kept, is_marked, is_sure_at};
pub use laws::dues_are_narrow;
pub use moved::{is_held_by_move, is_held_stale, is_move_done, stays_fresh};
pub use next::next_at;
pub use notes::{first_note, note_due};
pub use pending::{is_failing, is_pending, is_waiting};
pub use phases::{are_at_rest, might_pin, might_transfer};
pub use pinned::unpin;
pub use places::holds_pin;
pub use quiet::{is_quiet, is_quiet_for};
pub use source::{copy_read, next_source};
pub use span::Span;
pub use standing::{
    are_targets, copies_for, destination_aim, destination_for, group_in, group_of, is_aim,
    is_beside_copy, is_caught, is_missing, is_running, is_settled, is_stale, is_sure, is_usable,
    is_wanted_stale, is_whole, lp_of, mode_of, policy_of,
};
pub use starts::{copy_write, has_buffer, is_lost};
pub use status::status_start;
pub use work::left;
