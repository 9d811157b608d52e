//! Reading and writing ranges of disks that are in no group, one transfer after another.
#![tactic(auto)]

mod blocks;
mod check;
mod disk;
mod fault;
mod look;
mod pieces;
mod request;

pub use blocks::{append, keep_front};
pub use check::{check as check_range, piece_end};
pub use disk::{read_disk, write_disk};
pub use fault::RawFault;
pub use request::{read_piece, write_piece};
