//! The words of the command line: what they ask for. `clap` reads them, behind a guard that refuses each
//! word that isn't plain: with a sign in front, or of more than 20 bytes. What is left of its language is
//! the one that is stated here. The words of a load, of which one is an option, are read by hand.
#![tactic(auto)]

mod fault;
mod job;
mod language;
mod load;
mod matched;
mod plain;
mod read;

pub use fault::WordsFault;
pub use job::Job;
pub use language::parse;
pub use read::read_words;
