//! The lines that read and write volumes, at once or later, and make turns.
#![tactic(auto)]

mod answers;
pub mod below;
mod laws;
mod refusal;
mod requests;
mod stepping;
mod waiting;

pub use laws::posts_have_causes;
pub use requests::{do_post, do_rd, do_wr};
pub use stepping::do_step;
pub use waiting::do_wait;
