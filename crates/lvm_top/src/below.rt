//! What is passed on from the crates below.

pub mod driver;
pub mod line;
pub mod stage;

pub use lvm_show::push_counted;
