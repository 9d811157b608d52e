//! What stands against members' joining a group, and the descriptors by which they join it.
#![tactic(auto)]

mod checks;
mod descriptors;
mod fault;
mod laws;
mod shown;
mod steps;

pub use checks::check;
pub use descriptors::with_member;
pub use fault::ExtendFault;
pub use laws::{members_join_one_by_one, members_may_join};
pub use shown::judge;
pub use steps::{StepsIn, steps_in};
