//! Copies leave a disk of a group that is on for another one, beside the requests that are open.
#![tactic(auto)]

mod fault;
pub mod laws;
mod migrating;
mod moving;

pub use fault::MoveFault;
pub use migrating::migrate;
pub use moving::move_one;
