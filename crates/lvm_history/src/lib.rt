//! The history of requests on disks and volumes, kept entry by entry in room that is made with it.
#![tactic(auto)]

pub mod below;
mod history;

pub use history::History;
pub use lvm_allowed::{Ask, Block, Row, has_landed, is_allowed, is_legal, is_taken, may_have};
