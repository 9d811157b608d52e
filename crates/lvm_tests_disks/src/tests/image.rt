//! New images, on a trial system that watches the calls on it.
use crate::tests::fixtures::check;
use crate::tests::trial::{Fault, MOST_OF_NEW, Trial};
use Step::*;
use lvm_io::{Images, Put, Sink};
use lvm_lane::{Exclusive, ImageSink};
use std::rt::Files;

// What is asked of the sink.
#[derive(Clone, Copy)]
enum Step {
    // Whether the disk has no file yet.
    Choose(u16),
    // So many writes: whether each took as many bytes as one may.
    Write(u32),
    // Whether what it took is durable.
    Settle,
    // Whether a disk was chosen.
    IsChosen,
}

// What goes wrong, what is asked, its answer, and then the writes that weren't synced and the syncs.
type Row = (Fault, Step, bool, (u32, u32));

// The folder is synced where a file is made. 1,024 writes are 64 MiB.
static SCRIPTS: [(&str, &[Row]); 7] = [
    (
        "nothing is taken before a disk is chosen",
        &[
            (Fault::Nothing, IsChosen, false, (0, 0)),
            (Fault::Nothing, Write(1), false, (0, 0)),
            (Fault::Nothing, Settle, true, (0, 0)),
            (Fault::Nothing, Choose(0), true, (0, 1)),
            (Fault::Nothing, IsChosen, true, (0, 1)),
        ],
    ),
    (
        "what it took is synced where it is settled",
        &[
            (Fault::Nothing, Choose(0), true, (0, 1)),
            (Fault::Nothing, Write(3), true, (3, 1)),
            (Fault::Nothing, Settle, true, (0, 2)),
            (Fault::Nothing, Write(2), true, (2, 2)),
            (Fault::Syncs, Settle, false, (2, 2)),
        ],
    ),
    (
        "what it took is synced after each 64 MiB",
        &[
            (Fault::Nothing, Choose(0), true, (0, 1)),
            (Fault::Nothing, Write(1_023), true, (1_023, 1)),
            (Fault::Nothing, Write(1), true, (0, 2)),
            (Fault::Nothing, Write(1_024), true, (0, 3)),
            (Fault::Nothing, Write(1), true, (1, 3)),
        ],
    ),
    (
        "after a sync that failed each write fails until a disk is chosen",
        &[
            (Fault::Nothing, Choose(0), true, (0, 1)),
            (Fault::Nothing, Write(1_023), true, (1_023, 1)),
            (Fault::Syncs, Write(1), false, (1_024, 1)),
            (Fault::Nothing, Write(1), false, (1_024, 1)),
            (Fault::Nothing, Choose(2), true, (1_024, 2)),
            (Fault::Nothing, Write(1), true, (1_025, 2)),
            (Fault::Nothing, Settle, true, (0, 3)),
        ],
    ),
    (
        "after a write that failed each write fails",
        &[
            (Fault::Nothing, Choose(0), true, (0, 1)),
            (Fault::Writes, Write(1), false, (0, 1)),
            (Fault::Nothing, Write(1), false, (0, 1)),
        ],
    ),
    (
        "a file that is there isn't written over",
        &[
            (Fault::Nothing, Choose(1), false, (0, 0)),
            (Fault::Nothing, Write(1), false, (0, 0)),
            (Fault::Nothing, Choose(0), true, (0, 1)),
            (Fault::Nothing, Write(1), true, (1, 1)),
        ],
    ),
    (
        "a file that isn't this program's, or that its folder may lose, isn't written",
        &[
            (Fault::Held("hdisk0.img"), Choose(0), true, (0, 0)),
            (Fault::Nothing, Write(1), false, (0, 0)),
            (Fault::Syncs, Choose(2), true, (0, 0)),
            (Fault::Nothing, Write(1), false, (0, 0)),
        ],
    ),
];

fn write<S: Sink>(sink: &mut S, bytes: &[u8], times: u32) -> bool {
    for _ in 0..times {
        if bytes.is_empty() || sink.write(bytes) != Put::Took(MOST_OF_NEW) {
            return false;
        }
    }
    true
}

fn ask<R: Files>(sink: &mut ImageSink<'_, R>, bytes: &[u8], step: Step) -> bool
where
    R::File: Exclusive,
{
    match step {
        Choose(disk) => {
            sink.choose(disk);
            !sink.is_taken()
        }
        Write(times) => write(sink, bytes, times),
        Settle => sink.settle().is_ok(),
        IsChosen => sink.is_chosen(),
    }
}

#[test]
fn an_image_is_made_and_synced(rt: HostRuntime) {
    let bytes = vec![in rt.alloc(); 0; MOST_OF_NEW + 1].expect(&rt, "memory");
    for (name, rows) in &SCRIPTS {
        let trial = Trial::new(&rt, true, 2, 0);
        let files = &trial;
        let mut sink = ImageSink::new(&files);
        for (fault, step, answer, counts) in *rows {
            trial.set_fault(*fault);
            let is = (ask(&mut sink, &bytes, *step), trial.counts());
            check(&rt, is == (*answer, *counts), name);
        }
    }
}
