//! The chains in which a history's rows stand, along which what a block may be is found, and how far each request has
//! come.
#![tactic(auto)]

mod along;
mod index;

pub use along::{Places, may_have_along};
pub use index::{Index, Link, REST, SHAPING, Step, chain_of, plain_chain};
