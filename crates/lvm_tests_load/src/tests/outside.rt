// Words, sources and sinks for a run, and what is wanted of it.
ghost use Rattle.std.specs.Prelude.{IsTrue};
ghost use Rattle.lvm_disk.specs.Device.{IsReady};

use lvm_disk::Shelf;
use lvm_io::{MemClock, MemSink, MemSource};
use lvm_num::{Rows, Text};
use lvm_program::run_words;
use std::process::Abort;
use std::sync::Wait;
use std::thread::Threads;

/// Ends the test where this isn't so, and says of what.
pub fn check(rt: &impl Abort, is: bool, what: &str)
    ensures { IsTrue is }
{
    assert!(rt; is, "{what}");
}

fn sink(rt: &(impl Abort + AllocGlobal), room: usize) -> MemSink {
    let alloc = rt.alloc();
    MemSink::new(alloc, room, Rows::empty(alloc)).expect(rt, "a sink")
}

fn source(rt: &(impl Abort + AllocGlobal), script: &[u8]) -> MemSource {
    let alloc = rt.alloc();
    let bytes = Vec::from_slice(alloc, script).expect(rt, "a script");
    MemSource::new(Rows::new(bytes), Rows::empty(alloc))
}

fn texts(rt: &(impl Abort + AllocGlobal), words: &[&str]) -> Vec<Text> {
    let alloc = rt.alloc();
    let mut texts = Vec::new(alloc);
    for word in words {
        let word = String::from_str(alloc, word).expect(rt, "a word");
        texts.push(Text::new(word)).expect(rt, "a place");
    }
    texts
}

/// What a run leaves of its files, its status, and what it writes.
#[derive(Drop)]
pub struct Answer<S> {
    pub files: S,
    pub status: u8,
    pub out: MemSink,
}

/// Does what the words ask for over these files, with a script as its input and a clock that answers this moment first.
pub fn run<S: Shelf + Send + Drop>(
    rt: &(impl Abort + AllocGlobal + Threads + Wait + Sync),
    words: &[&str],
    script: &[u8],
    moment: u64,
    files: S,
) -> Answer<S>
    requires { IsReady (S.device files) }
{
    let texts = texts(rt, words);
    let mut input = source(rt, script);
    let mut out = sink(rt, 65_536);
    let mut err = sink(rt, 1_024);
    let mut images = sink(rt, 0);
    let mut clock = MemClock::new(moment.max(1));
    let ended = run_words(
        rt,
        rt.alloc(),
        &texts,
        &mut input,
        &mut out,
        &mut err,
        &mut clock,
        files,
        &mut images,
    );
    Answer {
        files: ended.shelf,
        status: ended.status.code(),
        out,
    }
}
