//! Tests of what a session is made of, by public calls alone.
#![tactic(auto)]

#[cfg(test)]
mod tests;
