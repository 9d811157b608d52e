//! What is passed on from the crates below.

pub use lvm_session::below::{History, Homes, Pool};
pub use lvm_session::{Flown, Open, Origin, Power, Session};
