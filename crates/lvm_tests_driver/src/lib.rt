//! Tests of the driver of requests, and of stale copies that are brought up, by public calls.
#![tactic(auto)]

#[cfg(test)]
mod tests;
