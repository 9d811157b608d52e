//! The lines by which the group that is on loses members.
#![tactic(auto)]

mod reducing;

pub use reducing::do_reducevg;
