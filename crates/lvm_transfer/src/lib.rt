//! One transfer on a shelf at which nothing else is out, and reads of sectors by one after another.
#![tactic(auto)]

pub mod below;
mod moves;
mod reading;

pub use moves::{Moved, Patience, relight, transfer};
pub use reading::{Extent, Stop, Unread, read_front, read_sectors};
