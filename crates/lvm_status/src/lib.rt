//! Which partitions of a volume group are stale, which of its disks are missing, and which of its volumes are
//! dirty, as a session keeps it; and which copies are left behind by the disks that don't answer. The status
//! of a session beside its requests: what is committed, the one update that may be in flight, and what is
//! wanted.
#![tactic(auto)]

pub mod below;
mod change;
pub mod laws;
mod mark;
mod rows;
mod table;
mod tables;
mod updater;
mod writes;

pub use change::{Change, Progress};
pub use mark::mark_volumes;
pub use table::StaleTable;
pub use tables::Tables;
pub use updater::{Updater, members_there};
pub use writes::Writes;
