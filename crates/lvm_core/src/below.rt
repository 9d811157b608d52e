//! What is passed on from the crates below.

pub use lvm_commit::below::Patience;
pub use lvm_quorum::Choice;
pub use lvm_session::Power;
pub use lvm_write::homes_of;
