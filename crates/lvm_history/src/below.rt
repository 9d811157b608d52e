//! What is passed on from the crates below.

pub use lvm_vol::below::Memory;
pub use lvm_vol::{Entry, Outcome, Vol};
