//! The buffers of a session, which go out for a transfer and come back.
#![tactic(auto)]

mod pool;

pub use pool::Pool;
