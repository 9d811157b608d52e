//! A volume is split: of each logical partition it keeps some copies, and the others become a volume of their own.
#![tactic(auto)]

mod splitting;

pub use splitting::split;
