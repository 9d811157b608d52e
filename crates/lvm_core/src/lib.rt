//! The driver of a session: a group that is varied on, over its shelf.
#![tactic(auto)]

pub mod below;
mod commit;
mod driver;
mod fault;
mod look;
mod marks;
mod parts;
mod prepared;
mod records;
mod refused;
mod zero;

pub use driver::{Closed, CommandDriver, without_freed};
pub use fault::CommitFault;
pub use look::number_of;
pub use parts::{Parts, Room};
pub use prepared::Prepared;
pub use records::{RecordBytes, encode_records};
pub use refused::{Cause, Refused};
