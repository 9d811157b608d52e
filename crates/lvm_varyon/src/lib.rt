//! The varying on of a volume group: which group a name chooses, its next status, its records under a new
//! moment, and its copies made equal.
#![tactic(auto)]

pub mod below;
mod plan;
mod vary;
mod writes;

pub use plan::{Copying, Plan, plan_of};
pub use vary::varyon;
