//! The making and the removal of volumes, and of copies of volumes, of a group that is on.
#![tactic(auto)]

mod copies;
pub mod even_laws;
pub mod laws;
mod tidying;
mod volumes;

pub use copies::{mklvcopy, rmlvcopy};
pub use lvm_volume_plan::GroupFault;
pub use tidying::tidy;
pub use volumes::{commit_between, mklv, rmlv};
