//! Tests of disks in memory and of image files, by their public calls alone.
#![tactic(auto)]

#[cfg(test)]
mod tests;
