//! What stands on the disks of a group at which nothing is under way: usable copies are even, no fresh copy is left
//! behind, and what group commands leave of that.
#![tactic(auto)]

mod laws;

pub use laws::{
    behind_stays, cleaning_follows, copies_serve, even_stays, marks_follow, pairs_rest,
};
