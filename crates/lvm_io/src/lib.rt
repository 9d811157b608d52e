//! Where a script comes from, where replies go, and what tells the time: traits, forms in memory, and
//! adapters of what the system gives; lines of a source, and texts to a sink.
#![tactic(auto)]

mod lines;
mod memory;
mod stream;
mod system;

pub use lines::{Lines, MOST_BYTES, NextLine, SinkFault, lines_make_the_text, write_all};
pub use memory::{MemClock, MemSink, MemSource};
pub use stream::{Clock, Got, Images, Put, Sink, Source};
pub use system::{StdSink, StdSource, SystemClock};
