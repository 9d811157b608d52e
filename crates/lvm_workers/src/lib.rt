//! Workers that share one value behind a turn. Each asks it for requests that are drawn from a seed, one at a time, in a
//! thread of its own, and waits for its answers. One more may bring up copies beside them.
#![tactic(auto)]

mod asking;
mod bring;
mod crew;
mod service;
mod words;
mod work;

pub use asking::PATIENCE;
pub use bring::{Brings, Brought, run_crew, seats};
pub use crew::Crew;
pub use service::{Asked, Seen, Service};
pub use words::{Draw, draw_request, generator, next_word};
pub use work::{Job, Tally};
