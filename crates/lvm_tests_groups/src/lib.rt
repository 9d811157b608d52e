//! Tests of surveys, choices and writes of records, and of commits, by public calls alone.
#![tactic(auto)]

#[cfg(test)]
mod tests;
