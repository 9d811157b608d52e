//! One request of a volume on its way: what it waits for, what it does next, and how it lands.
#![tactic(auto)]

mod ask;
pub mod below;
mod facts;
mod next;
mod request;
mod target;

pub use ask::Ask;
pub use facts::{Facts, Next};
pub use request::{Phase, Request};
pub use target::{Target, any_flies, any_is_done, are_over};
