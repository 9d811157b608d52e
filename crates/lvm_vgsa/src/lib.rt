//! The bytes of a status.
#![tactic(auto)]

pub mod below;
mod laws;
mod putting;
mod reading;
mod writing;

pub use laws::written_is_read;
pub use reading::decode;
pub use writing::{encode, encode_into};
