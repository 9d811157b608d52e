//! Copies that stand on missing disks move to spares, beside the requests that are open.
#![tactic(auto)]

mod choosing;
mod fault;
pub mod laws;
mod rebuilding;

pub use fault::RebuildFault;
pub use rebuilding::rebuild;
