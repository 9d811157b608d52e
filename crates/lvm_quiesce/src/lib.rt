//! Commands on a shelf on which transfers of before may still be out: these are ended first.
#![tactic(auto)]

pub mod below;
mod ends;
mod groups;
pub mod laws;
mod ranges;

pub use ends::{Quiesced, quiesce};
pub use groups::{mkvg, varyon};
pub use ranges::{read_disk, write_disk};
