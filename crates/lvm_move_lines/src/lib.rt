//! The line that moves the copies of a disk of the group that is on to another disk of it, beside requests.
#![tactic(auto)]

mod asking;
mod moving;

pub use moving::do_migratepv;
