//! Tests of the records and of what is found in them, by public calls alone.
#![tactic(auto)]

#[cfg(test)]
mod tests;
