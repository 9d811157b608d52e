//! What is passed on from the crates below.

pub use lvm_history::History;
pub use lvm_hold::Held;
pub use lvm_kept::below::Homes;
pub use lvm_mwc::Cache;
pub use lvm_num::Pbuf;
pub use lvm_path::{Ask, Target};
pub use lvm_pbuf::Pool;
