//! Copies of a group are made equal before it comes on.
#![tactic(auto)]

mod clean;
mod copying;
mod dirty;
mod equal;
mod laws;
mod plan;

pub use clean::still_dirty;
pub use copying::{Recopy, copy_all};
pub use dirty::copy_dirty;
pub use equal::equalise;
pub use laws::{
    copies_go_on, equalised_ends, left_dirty_is_cleaned, named_are_planned, pairs_copy,
    planned_make_equal, restated_may_equalise,
};
pub use plan::{TrackGroup, named_by, plan_copies};
