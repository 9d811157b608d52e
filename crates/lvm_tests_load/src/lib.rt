//! Tests of loads, by the words of the command line: threads that share a group on disks in memory. And of scripts over
//! image files.
#![tactic(auto)]

#[cfg(test)]
mod tests;
