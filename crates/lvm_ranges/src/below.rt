//! What is passed on from the crates below.

pub mod driver;

pub use lvm_driver::Driver;
pub use lvm_driver::below::Closed;
pub use lvm_driver::laws::whole_groups_begin;
pub use lvm_posts::{Asked, Post, RangeFault, end_posts, take_closed};
