//! The program by words, over files in memory.

ghost use Rattle.lvm_disk.specs.Device.{IsReady};
ghost use Rattle.lvm_memory.specs.Memory.{device_of};

use crate::fault::Fault;
use crate::outside::{Outside, ample};
use lvm_io::{MemClock, MemSink, MemSource};
use lvm_memory::MemShelf;
use lvm_num::Text;
use lvm_program::{Ended, run_words};
use std::alloc::Global;
use std::sync::Wait;
use std::thread::Threads;

/// How a run by words ended, what it gave back, and what it wrote.
#[derive(Drop)]
pub struct Answered {
    pub ended: Ended<MemShelf>,
    pub sinks: Sinks,
}

/// The sinks of a run by words: for replies, for what is said beside, and for images.
#[derive(Drop)]
pub struct Sinks {
    pub out: MemSink,
    pub err: MemSink,
    pub images: MemSink,
}

/// The sinks: the room of the one for images is said, that of the others is ample.
pub(crate) fn make_sinks(alloc: Global, outside: &Outside) -> Result<Sinks, Fault> {
    let images = outside.sink(alloc)?;
    let (out, err) = two_sinks(alloc)?;
    Ok(Sinks { out, err, images })
}

fn two_sinks(alloc: Global) -> Result<(MemSink, MemSink), Fault> {
    let out = ample(alloc)?;
    let err = ample(alloc)?;
    Ok((out, err))
}

/// Lets the program answer words over these files.
pub(crate) fn answer<R: Threads + Wait + Sync>(
    rt: &R,
    alloc: Global,
    words: &[Text],
    input: &mut MemSource,
    sinks: &mut Sinks,
    files: MemShelf,
) -> Ended<MemShelf>
    requires { IsReady (device_of files) }
{
    let mut clock = MemClock::new(7);
    run_words(
        rt,
        alloc,
        words,
        input,
        &mut sinks.out,
        &mut sinks.err,
        &mut clock,
        files,
        &mut sinks.images,
    )
}
