//! Ranges of volumes of the group that is on: they are asked for in pieces, and answered once all have
//! landed. Stale copies of a group that is on are brought up beside its requests.
#![tactic(auto)]

mod ask;
pub mod below;
mod copies;
mod fault;
mod landing;
pub mod laws;
mod passes;
mod reading;
mod refusal;
mod resync_turns;
mod sync;
mod taking;
mod tally;
mod turns;

pub use ask::ask_range;
pub use fault::SyncFault;
pub use landing::{Stuck, await_range};
pub use reading::read_blocks;
pub use refusal::AskRangeFault;
pub use sync::{sync_group, sync_partition, sync_volume};
pub use taking::{finish_range, take_range};
pub use turns::step;
