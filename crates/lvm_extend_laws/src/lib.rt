//! What the disks of a group show while a disk joins it.
#![tactic(auto)]

mod laws;

pub use laws::{
    disks_may_join, joining_is_committed, joining_is_held, joining_keeps, joining_writes_keep,
};
