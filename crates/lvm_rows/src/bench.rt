//! A case, line by line.
ghost use Rattle.std.specs.Prelude.{IfOk};
ghost use Rattle.lvm_disk.specs.Device.{IsReady};
ghost use Rattle.lvm_memory.specs.Memory.{device_of};

use crate::fault::Fault;
use crate::images::{copied, edit, zeros};
use crate::outside::{Outside, Streams, ample};
use crate::parse;
use crate::print::{print_given, print_line, print_lines, print_probe, print_run, print_words};
use crate::run::{Judged, Sizes, Watched, blank, images_of, judge, restarted, run, run_load};
use crate::script::Script;
use crate::shown::Window;
use crate::sweep::{Swept, Swing, sweep};
use crate::words::{Answered, Sinks, answer, make_sinks};
use crate::wrote::{Wrote, compared};
use lvm_io::{MemClock, MemSink, MemSource};
use lvm_memory::MemShelf;
use lvm_num::{Rows, Text};
use lvm_program::{Ended, Room, Workload};
use std::alloc::Global;
use std::collections::BTreeSet;
use std::mem;
use std::sync::Wait;
use std::thread::Threads;

/// The room of a run where nothing else is said.
const ROOM: Room = Room {
    table: 4,
    pool: 4,
    entries: 1_024,
    bytes: 1_048_576,
};

/// The moment that a clock answers first where nothing else is said.
const FIRST: u64 = 7;

/// What the disks of a case have, as its runs leave them, and what the next run is given.
#[derive(Drop)]
pub struct Bench {
    sizes: Sizes,
    left: Option<Vec<Rows<u8>>>,
    script: Script,
    outside: Outside,
    clock: MemClock,
    watched: Watched,
    windows: Vec<Window>,
}

impl Bench {
    /// A case of no disks.
    pub(crate) fn new(alloc: Global) -> Bench {
        Bench {
            sizes: Sizes {
                sectors: Vec::new(alloc),
                room: ROOM,
            },
            left: None,
            script: Script::new(alloc),
            outside: Outside::new(alloc),
            clock: MemClock::new(FIRST),
            watched: Watched {
                block: None,
                mirror: None,
            },
            windows: Vec::new(alloc),
        }
    }

    /// Does what a line of the cases says that asks for no run by words.
    pub(crate) fn take_line(
        &mut self,
        alloc: Global,
        line: &str,
        out: &mut Vec<u8>,
    ) -> Result<(), Fault> {
        let (verb, rest) = parse::split(line);
        match verb {
            "" | "#" => Ok(()),
            "case" => self.begin(alloc, line, out),
            ">" => self.script.push_line(rest),
            "*" => self.script.push_marked(rest),
            "run" => self.run(alloc, out),
            "sweep" => self.sweep(alloc, rest, None, out),
            "twice" => self.twice(alloc, rest, out),
            "probe" => self.probe(alloc, rest, out),
            "weave" => self.weave(alloc, rest, out),
            "put" | "fill" | "copy" | "resize" => self.edit(alloc, verb, rest),
            _ => self.set(alloc, verb, rest),
        }
    }

    // Begins another case.
    fn begin(&mut self, alloc: Global, line: &str, out: &mut Vec<u8>) -> Result<(), Fault> {
        drop(mem::replace(self, Bench::new(alloc)));
        print_line(out, line.as_bytes())
    }

    // Says something of the disks or of the next run.
    fn set(&mut self, alloc: Global, verb: &str, rest: &str) -> Result<(), Fault> {
        match verb {
            "sim" => self.set_sizes(parse::simulated(alloc, rest)),
            "disks" => self.set_sizes(parse::numbers(alloc, rest)),
            "entries" | "bytes" | "table" | "pool" => self.set_room(verb, rest),
            "block" => self.watch(rest),
            "alike" => self.watch_mirror(rest),
            "shows" => self.watch_bytes(rest),
            "feeds" => self.script.push_feeds(parse::small(rest)?),
            "clock" => self.set_clock(rest),
            "plan" => self.outside.push_act(rest),
            "source" => self.outside.push_fault(rest),
            "sink" => self.outside.set_room(rest),
            "unended" => {
                self.script.unend();
                Ok(())
            }
            _ => Err(Fault::Line),
        }
    }

    fn set_sizes(&mut self, sectors: Result<Vec<u64>, Fault>) -> Result<(), Fault> {
        self.sizes.sectors = sectors?;
        Ok(())
    }

    // Says how much of something the next runs have room for.
    fn set_room(&mut self, verb: &str, rest: &str) -> Result<(), Fault> {
        let room = &mut self.sizes.room;
        match verb {
            "bytes" => room.bytes = parse::number(rest)?,
            "table" => room.table = parse::small(rest)?,
            "pool" => room.pool = parse::small(rest)?,
            _ => room.entries = parse::small(rest)?,
        }
        Ok(())
    }

    fn set_clock(&mut self, rest: &str) -> Result<(), Fault> {
        let first = parse::number(rest)?;
        self.clock = MemClock::new(first.max(1));
        Ok(())
    }

    fn watch(&mut self, rest: &str) -> Result<(), Fault> {
        self.watched.block = Some(parse::place(rest)?);
        Ok(())
    }

    fn watch_mirror(&mut self, rest: &str) -> Result<(), Fault> {
        self.watched.mirror = Some(parse::mirror(rest)?);
        Ok(())
    }

    fn watch_bytes(&mut self, rest: &str) -> Result<(), Fault> {
        let window = parse::window(rest)?;
        Ok(self.windows.push(window)?)
    }

    // Edits the disks as they stand.
    fn edit(&mut self, alloc: Global, verb: &str, rest: &str) -> Result<(), Fault> {
        let mut images = self.standing(alloc)?;
        edit(alloc, &mut images, verb, rest)?;
        self.left = Some(images);
        Ok(())
    }

    // The disks as they stand.
    fn standing(&self, alloc: Global) -> Result<Vec<Rows<u8>>, Fault> {
        match &self.left {
            Some(images) => copied(alloc, images),
            None => zeros(alloc, &self.sizes.sectors),
        }
    }

    // The disks as they stand, with some edits.
    fn edited(&self, alloc: Global, edits: &str) -> Result<Vec<Rows<u8>>, Fault> {
        let mut images = self.standing(alloc)?;
        for text in edits.split(", ") {
            let (verb, rest) = parse::split(text);
            edit(alloc, &mut images, verb, rest)?;
        }
        Ok(images)
    }

    // Runs the script over the disks with some edits, and leaves both as they were.
    fn probe(&mut self, alloc: Global, edits: &str, out: &mut Vec<u8>) -> Result<(), Fault> {
        let mut streams = self.outside.streams(alloc, self.script.text())?;
        let done = self.probe_over(alloc, &mut streams, edits, out);
        drop(streams);
        done
    }

    fn probe_over(
        &mut self,
        alloc: Global,
        streams: &mut Streams,
        edits: &str,
        out: &mut Vec<u8>,
    ) -> Result<(), Fault> {
        let (judged, wrote) = self.probed(alloc, streams, edits)?;
        print_probe(edits, streams.out.bytes(), judged, wrote, out)
    }

    // What is judged of a run over the disks with some edits, and what it wrote.
    fn probed(
        &mut self,
        alloc: Global,
        streams: &mut Streams,
        edits: &str,
    ) -> Result<(Judged, Wrote), Fault> {
        let images = self.edited(alloc, edits)?;
        let before = copied(alloc, &images);
        let shelf = restarted(alloc, images, self.outside.plan())?;
        let ended = run(alloc, streams, shelf, &mut self.clock, self.sizes.room);
        let after = images_of(alloc, &ended.shelf);
        let judged = judge(&ended, self.watched);
        drop(ended);
        Ok((judged, compared(&before?, &after?)))
    }

    // A workload over the disks.
    fn weave(&mut self, alloc: Global, rest: &str, out: &mut Vec<u8>) -> Result<(), Fault> {
        let load = parse::workload(rest)?;
        let mut sink = ample(alloc)?;
        let done = self.weave_over(alloc, &load, &mut sink, out);
        drop(sink);
        done
    }

    fn weave_over(
        &mut self,
        alloc: Global,
        load: &Workload,
        sink: &mut MemSink,
        out: &mut Vec<u8>,
    ) -> Result<(), Fault> {
        let shelf = self.shelf(alloc)?;
        let ended = run_load(alloc, load, sink, shelf, &mut self.clock, &self.sizes)?;
        let done = self.end_run(alloc, sink.bytes(), &ended, out);
        drop(ended);
        done
    }

    // The disks of the next run.
    fn shelf(&mut self, alloc: Global) -> Result<MemShelf, Fault>
        ensures { IfOk result (λ shelf. IsReady (device_of shelf)) }
    {
        match self.left.take() {
            None => blank(alloc, &self.sizes.sectors, self.outside.plan()),
            Some(images) => restarted(alloc, images, self.outside.plan()),
        }
    }

    // The next run.
    fn run(&mut self, alloc: Global, out: &mut Vec<u8>) -> Result<(), Fault> {
        let mut streams = self.outside.streams(alloc, self.script.text())?;
        let done = self.run_over(alloc, &mut streams, out);
        drop(streams);
        done
    }

    fn run_over(
        &mut self,
        alloc: Global,
        streams: &mut Streams,
        out: &mut Vec<u8>,
    ) -> Result<(), Fault> {
        let shelf = self.shelf(alloc)?;
        let ended = run(alloc, streams, shelf, &mut self.clock, self.sizes.room);
        let done = self.end_run(alloc, streams.out.bytes(), &ended, out);
        drop(ended);
        done
    }

    fn end_run(
        &mut self,
        alloc: Global,
        text: &[u8],
        ended: &Ended<MemShelf>,
        out: &mut Vec<u8>,
    ) -> Result<(), Fault> {
        print_run(alloc, text, ended, self.watched, &self.windows, out)?;
        self.leave(alloc, &ended.shelf)
    }

    // Keeps the disks as a run leaves them, and forgets what it was given.
    fn leave(&mut self, alloc: Global, shelf: &MemShelf) -> Result<(), Fault> {
        self.script = Script::new(alloc);
        self.outside = Outside::new(alloc);
        self.left = Some(images_of(alloc, shelf)?);
        Ok(())
    }

    fn sweep(
        &self,
        alloc: Global,
        rest: &str,
        again: Option<u64>,
        out: &mut Vec<u8>,
    ) -> Result<(), Fault> {
        let acts = parse::acts(alloc, rest)?;
        let swing = Swing { acts: &acts, again };
        let mut endings = BTreeSet::new(alloc);
        let done = match sweep(alloc, &self.swept(), &swing, &mut endings) {
            Ok(()) => print_lines(out, &endings),
            Err(fault) => Err(fault),
        };
        drop(endings);
        done
    }

    // What a sweep runs.
    fn swept(&self) -> Swept<'_> {
        let left = match &self.left {
            Some(images) => Some(images.as_slice()),
            None => None,
        };
        Swept {
            sizes: &self.sizes,
            left,
            script: &self.script,
            outside: &self.outside,
            watched: self.watched,
            windows: &self.windows,
        }
    }

    // A sweep in which the act is done again so many calls later.
    fn twice(&self, alloc: Global, rest: &str, out: &mut Vec<u8>) -> Result<(), Fault> {
        let (later, acts) = parse::split(rest);
        let later = parse::number(later)?;
        self.sweep(alloc, acts, Some(later), out)
    }

    /// A run by words: `draw` makes what it writes the script, `ends` prints its end, and any other verb all of it.
    pub(crate) fn by_words<R: Threads + Wait + Sync>(
        &mut self,
        rt: &R,
        alloc: Global,
        verb: &str,
        rest: &str,
        out: &mut Vec<u8>,
    ) -> Result<(), Fault> {
        let words = parse::bracketed(alloc, rest)?;
        let answered = self.answer(rt, alloc, &words)?;
        let done = self.end_words(alloc, verb, &answered, out);
        drop(answered);
        done
    }

    // What the program answers to words.
    fn answer<R: Threads + Wait + Sync>(
        &mut self,
        rt: &R,
        alloc: Global,
        words: &[Text],
    ) -> Result<Answered, Fault> {
        let mut input = self.outside.source(alloc, self.script.text())?;
        let mut sinks = make_sinks(alloc, &self.outside)?;
        let ended = self.answer_over(rt, alloc, words, &mut input, &mut sinks)?;
        Ok(Answered { ended, sinks })
    }

    fn answer_over<R: Threads + Wait + Sync>(
        &mut self,
        rt: &R,
        alloc: Global,
        words: &[Text],
        input: &mut MemSource,
        sinks: &mut Sinks,
    ) -> Result<Ended<MemShelf>, Fault> {
        let files = self.shelf(alloc)?;
        Ok(answer(rt, alloc, words, input, sinks, files))
    }

    // Keeps the files of a run by words as it leaves them.
    fn end_words(
        &mut self,
        alloc: Global,
        verb: &str,
        answered: &Answered,
        out: &mut Vec<u8>,
    ) -> Result<(), Fault> {
        match verb {
            "draw" => self.script.replace(answered.sinks.out.bytes())?,
            "ends" => print_given(alloc, answered, self.watched, out)?,
            _ => {
                print_words(&answered.sinks, out)?;
                print_given(alloc, answered, self.watched, out)?;
            }
        }
        self.left = Some(images_of(alloc, &answered.ended.shelf)?);
        Ok(())
    }
}
