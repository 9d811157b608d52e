//! Tests of histories and of the turn that lends them, by public calls alone.
#![tactic(auto)]

#[cfg(test)]
mod tests;
