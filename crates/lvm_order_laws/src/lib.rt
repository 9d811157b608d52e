//! Laws over shelves that do nothing but what they are ordered.
#![tactic(auto)]

pub mod laws;
