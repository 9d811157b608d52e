//! The bytes of a descriptor, read and written: its head, and the rows of its members and volumes.
#![tactic(auto)]

pub mod below;
mod head;
mod laws;
mod maps;
mod reading;
mod rows;
mod used;
mod writing;

pub use head::{begin_at, counts_at, name_at, rules_at};
pub use laws::descriptors_are_exact;
pub use reading::decode;
pub use rows::{members_at, volumes_at};
pub use writing::encode;
