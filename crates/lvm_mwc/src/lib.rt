//! The cache of track groups that may differ after a crash, and the consistency record of each disk.
#![tactic(auto)]

mod cache;
mod entries;
mod filled;
mod forms;
pub mod laws;
mod notes;

pub use cache::{Cache, Pin};
pub use entries::CacheEntry;
pub use notes::DiskNotes;
