//! A session whose group loses members: what stands on its disks goes on to stand, what is found of the group afterwards, and that
//! requests may follow.
#![tactic(auto)]

mod reduce_laws;

pub use reduce_laws::{reduce_finds, reduce_goes_on, reduce_leaves_out, reduce_serves};
