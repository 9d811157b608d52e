//! Ranges of volumes that are asked for: their pieces, and their answers once their session is gone.
#![tactic(auto)]

mod asked;
pub mod below;
mod fault;
pub mod laws;
mod pieces;
mod posts;

pub use asked::Asked;
pub use fault::{RangeFault, first_fault};
pub use pieces::{fill_bytes, piece_count, piece_lp};
pub use posts::{Post, end_posts, take_closed};
