//! The command by which members leave a group that is on.
#![tactic(auto)]

mod departure;
mod erasing;
mod laws;
mod leaving;
mod reduce;

pub use laws::members_may_leave;
pub use lvm_member_plan::ReduceFault;
pub use reduce::{Reduced, reducevg};
