//! The lines that make or remove a volume of the group that is on, give one more copies, leave it fewer, split
//! one, or bring up stale ones; those by which it changes its rule of votes or becomes big; and the one that varies it off.
#![tactic(auto)]

pub mod below;
mod changing;
mod closing;
mod copies;
mod resync;
mod split;
mod volumes;

pub use changing::{do_chvg_big, do_chvg_quorum};
pub use closing::do_varyoff;
pub use copies::{do_mklvcopy, do_rmlvcopy};
pub use resync::{do_sync_group, do_sync_volume};
pub use split::do_splitlvcopy;
pub use volumes::{
    after, after_fault, close_after, come_to_rest, do_mklv, do_rmlv, drain_refusal, go_on,
};
