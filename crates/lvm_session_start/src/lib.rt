//! A session begins.
#![tactic(auto)]

mod begin;
pub mod below;
mod parts;

pub use begin::{begin_session, first_session};
pub use parts::{Parts, SessionRoom, take_parts};
