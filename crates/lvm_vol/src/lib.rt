//! What a history of requests on disks and volumes tells: what was asked, how it ended, and which values
//! a block may have after it.
#![tactic(auto)]

pub mod below;
mod entry;
pub mod laws;
mod shown;

pub use entry::{Entry, Outcome, Vol};
pub use shown::{Past, Shown};
