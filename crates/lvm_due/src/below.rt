//! What is passed on from the crates below.

pub use crate::facts::{is_changed, is_unbegun};
pub use crate::facts_places::{copies_beside, is_pp, partition_blocks};
pub use crate::judged::counts_failed;
pub use crate::pending::{any_is_failing, is_waiting};
pub use crate::pinned::unpin;
pub use crate::standing::{
    copies_for, group_in, group_of, is_aim, is_running, is_usable, is_whole, mode_of, policy_of,
};
pub use lvm_session::below::Held;
pub use lvm_session::{Event, Open, Session, Step};
