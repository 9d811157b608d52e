//! A lock that lends one value with a history to one of many threads at a time, and lets each rely on
//! what it has seen: the history that it is lent begins with all of that, and holds the requests of
//! its own clients, each once, in its order. The lock and its rule are this project's own.
#![tactic(auto)]

mod pass;
mod rule;
mod steps;
mod turn;

pub use pass::Pass;
pub use turn::Turn;
