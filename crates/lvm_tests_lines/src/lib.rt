//! Tests of streams, of the words and lines of the language, and of listings, by public calls alone.
#![tactic(auto)]

#[cfg(test)]
mod tests;
