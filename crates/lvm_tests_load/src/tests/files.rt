// Scripts over image files of the folder in which the test runs.

use crate::tests::outside::{check, run};
use lvm_io::{MemClock, MemSink, MemSource};
use lvm_lane::{FileShelf, ImageSink};
use lvm_num::{Rows, Text};
use lvm_program::run_words;
use std::fs;
use std::fs::File;
use std::process::Abort;
use std::rt::Files;
use std::sync::Wait;
use std::thread::Threads;

const WRITE_AND_READ: &[u8] = b"wr hdisk0 4096 1 0000000000000001\nrd hdisk0 4096 1\n";

const MAKE: &[u8] = b"mkvg -y datavg -s 1 hdisk0\nfail hdisk0\n";

const COME_ON: &[u8] = b"varyonvg datavg\nlspv hdisk0\n";

fn sink(rt: &(impl Abort + AllocGlobal)) -> MemSink {
    let alloc = rt.alloc();
    MemSink::new(alloc, 64, Rows::empty(alloc)).expect(rt, "a sink")
}

// Expects a script to end with this status and to write this, with a clock that answers this moment first.
fn says<R: Files<File = File> + AllocGlobal + Abort + Threads + Wait + Sync>(
    rt: &R,
    script: &[u8],
    moment: u64,
    status: u8,
    wanted: &str,
) {
    let files = FileShelf::open(rt, rt.alloc(), &mut sink(rt)).expect(rt, "files");
    let said = run(rt, &["script"], script, moment, files);
    check(rt, said.status == status, wanted);
    check(rt, said.out.bytes() == wanted.as_bytes(), wanted);
}

// The status of the making of an image of 8 MiB.
fn imaged<R: Files<File = File> + AllocGlobal + Abort + Threads + Wait + Sync>(rt: &R) -> u8 {
    let alloc = rt.alloc();
    let mut words = Vec::new(alloc);
    for word in ["image", "0", "8"] {
        let word = String::from_str(alloc, word).expect(rt, "a word");
        words.push(Text::new(word)).expect(rt, "a place");
    }
    let files = FileShelf::open(rt, alloc, &mut sink(rt)).expect(rt, "files");
    let ended = run_words(
        rt,
        alloc,
        &words,
        &mut MemSource::new(Rows::empty(alloc), Rows::empty(alloc)),
        &mut sink(rt),
        &mut sink(rt),
        &mut MemClock::new(7),
        files,
        &mut ImageSink::new(rt),
    );
    ended.status.code()
}

#[test]
fn an_image_is_made_and_scripts_run_over_it(rt: HostRuntime) {
    let _ = fs::remove_file(&rt, "hdisk0.img");
    let none = "refused 18 OutOfRange 0\nrefused 18 OutOfRange 0\n";
    says(&rt, WRITE_AND_READ, 7, 1, none);
    check(&rt, imaged(&rt) == 0, "it is made");
    let made = fs::metadata(&rt, "hdisk0.img").expect(&rt, "the image");
    check(&rt, made.len() == 8_388_608, "the length");
    let read = "ok\n4096 0000000000000001\n";
    says(&rt, WRITE_AND_READ, 7, 0, read);
    check(&rt, imaged(&rt) == 4, "it isn't made again");
    // A group is found by a later run, where the clock is ahead of the disk. Files take no orders.
    let made = "ok\nrefused 27 NoPlan\n";
    says(&rt, MAKE, 20, 1, made);
    let back = "refused 8 ClockBack 21\nrefused 2 NoGroup\n";
    says(&rt, COME_ON, 10, 1, back);
    let on = "ok\nhdisk0 datavg active pps 6 free 6 stale 0\n";
    says(&rt, COME_ON, 30, 0, on);
    let _ = fs::remove_file(&rt, "hdisk0.img");
}
