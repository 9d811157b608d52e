//! A session passes from the driver of requests to that of commands on its group, and back; and answers of
//! a session that is gone are taken while another one is on.
#![tactic(auto)]

pub mod below;
mod earlier;
pub mod earlier_laws;
mod handover;
pub mod laws;

pub use earlier::take_earlier;
pub use handover::{serve, settle};
