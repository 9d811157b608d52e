//! Image files: those of the system, and the one of a trial system, which watches the calls on it.
use crate::tests::fixtures::{Transfer, check, check_at, sink, start};
use crate::tests::trial::{Fault, Trial, are_filled};
use End::*;
use Transfer::*;
use lvm_disk::{Reaped, Shelf, Started};
use lvm_io::{Images, Put, Sink, write_all};
use lvm_lane::{Exclusive, FileShelf, ImageSink};
use lvm_num::{Pbuf, fill};
use std::fs;
use std::fs::{OpenFile, OpenOptions};
use std::process::Abort;
use std::rt::Files;

// What is said of one disk has room here.
const ROOM: usize = 100;

// What the sectors of a buffer have that take no part in a transfer.
const REST: u64 = u64::MAX;

#[derive(Clone, Copy, PartialEq, Eq)]
enum End {
    Well,
    // It ended well, with other bytes in its buffer.
    OtherBytes,
    Failed,
    // It may not be started, or didn't end.
    Refused,
}

fn sector_of(word: u64, count: u32, k: u32) -> [u8; 512] {
    fill(if k < count {
        word.wrapping_add(u64::from(k))
    } else {
        REST
    })
}

// A buffer whose first sectors have words from this one on.
fn buffer(rt: &(impl Abort + AllocGlobal), word: u64, count: u32) -> Pbuf {
    let mut buf = Pbuf::fresh(rt.alloc(), 0).expect(rt, "memory");
    for k in 0..256 {
        buf.set_sector(k, &sector_of(word, count, k));
    }
    buf
}

fn has_words(buf: &Pbuf, word: u64, count: u32) -> bool {
    (0..256).all(|k| *buf.sector(k) == sector_of(word, count, k))
}

// How a transfer ends whose sectors then have words from this one on.
fn finish<S: Shelf>(shelf: &mut S, word: u64, count: u32) -> End {
    if shelf.flights() == 0 {
        return Refused;
    }
    match shelf.reap() {
        Reaped::Done { ticket: _, buf } => {
            if has_words(&buf, word, count) {
                Well
            } else {
                OtherBytes
            }
        }
        Reaped::Failed { .. } => Failed,
        _ => Refused,
    }
}

fn carry_out<S: Shelf>(rt: &(impl Abort + AllocGlobal), shelf: &mut S, it: Transfer) -> End {
    let (Write(disk, first, count, word) | Read(disk, first, count, word)) = it;
    let writes = matches!(it, Write(..));
    let buf = buffer(rt, word, if writes { count } else { 0 });
    match start(shelf, writes, disk, (first, count), buf) {
        Some(Started::Ticket(_)) => finish(shelf, word, count),
        _ => Refused,
    }
}

fn sectors<S: Shelf>(shelf: &S, disk: u16) -> u64 {
    if disk < shelf.disks() {
        shelf.sectors(disk)
    } else {
        0
    }
}

fn faults<S: Shelf>(shelf: &S, disk: u16) -> u64 {
    if disk < shelf.disks() {
        shelf.faults(disk)
    } else {
        0
    }
}

// The file of the trial system has 300 sectors with the words from 1,000 on; it is synced when it is opened.
struct Case {
    name: &'static str,
    may_write: bool,
    // What goes wrong, the transfer, how it ends, and then the writes that weren't synced, the syncs and the
    // disk's faults.
    transfers: &'static [(Fault, Transfer, End, (u32, u32), u64)],
    // The sectors that the file has then: from which on, how many, and the first one's word.
    file: &'static [(u64, u32, u64)],
}

static CASES: [Case; 6] = [
    Case {
        name: "a write is synced before it is done, and a read syncs nothing",
        may_write: true,
        transfers: &[
            (Fault::Nothing, Write(1, 4, 2, 9), Well, (0, 2), 0),
            (Fault::Nothing, Read(1, 4, 2, 9), Well, (0, 2), 0),
            (Fault::Nothing, Write(1, 299, 1, 8), Well, (0, 3), 0),
        ],
        file: &[(0, 4, 1000), (4, 2, 9), (6, 293, 1006), (299, 1, 8)],
    },
    Case {
        name: "a transfer moves all its sectors, each to its own place",
        may_write: true,
        transfers: &[
            (Fault::Nothing, Read(1, 0, 256, 1000), Well, (0, 1), 0),
            (Fault::Nothing, Write(1, 30, 256, 5000), Well, (0, 2), 0),
            (Fault::Nothing, Read(1, 30, 256, 5000), Well, (0, 2), 0),
            (Fault::Nothing, Read(1, 31, 255, 5001), Well, (0, 2), 0),
            (
                Fault::Nothing,
                Read(1, 44, 256, 5014),
                OtherBytes,
                (0, 2),
                0,
            ),
        ],
        file: &[(0, 30, 1000), (30, 256, 5000), (286, 14, 1286)],
    },
    Case {
        name: "a write that failed may be tried again",
        may_write: true,
        transfers: &[
            (Fault::Writes, Write(1, 4, 2, 9), Failed, (0, 2), 1),
            (Fault::Nothing, Write(1, 4, 2, 9), Well, (0, 3), 1),
        ],
        file: &[(0, 4, 1000), (4, 2, 9), (6, 294, 1006)],
    },
    // Its 1,024 bytes are eleven writes of at most 100. The failed read is a miss.
    Case {
        name: "after a failed sync a file is used no more",
        may_write: true,
        transfers: &[
            (Fault::Syncs, Write(1, 4, 2, 9), Failed, (11, 1), 1),
            (Fault::Nothing, Write(1, 4, 2, 9), Failed, (11, 1), 2),
            (Fault::Nothing, Read(1, 4, 2, 9), Failed, (11, 1), 2),
        ],
        file: &[(0, 4, 1000), (6, 294, 1006)],
    },
    Case {
        name: "a file that may only be read is read",
        may_write: false,
        transfers: &[
            (Fault::Nothing, Read(1, 4, 2, 1004), Well, (0, 1), 0),
            (Fault::Nothing, Write(1, 4, 2, 9), Failed, (0, 2), 1),
        ],
        file: &[(0, 300, 1000)],
    },
    Case {
        name: "a disk without a file has no sectors",
        may_write: true,
        transfers: &[
            (Fault::Nothing, Read(0, 0, 1, 0), Refused, (0, 1), 0),
            (Fault::Nothing, Write(0, 0, 1, 0), Refused, (0, 1), 0),
        ],
        file: &[(0, 300, 1000)],
    },
];

#[test]
fn a_file_is_written_read_and_synced(rt: HostRuntime) {
    for case in &CASES {
        let trial = Trial::new(&rt, case.may_write, 300, 1000);
        let mut err = sink(&rt, ROOM);
        let mut shelf = FileShelf::open(&&trial, rt.alloc(), &mut err).expect(&rt, "memory");
        see_case(&rt, case, &trial, &mut shelf);
    }
}

fn see_case<S: Shelf>(rt: &(impl Abort + AllocGlobal), case: &Case, trial: &Trial, shelf: &mut S) {
    for (fault, it, end, counts, missed) in case.transfers {
        trial.set_fault(*fault);
        let ended = carry_out(rt, shelf, *it);
        let left = (ended, trial.counts(), faults(shelf, 1));
        check(rt, left == (*end, *counts, *missed), case.name);
    }
    check(rt, is_left(trial, case.file), case.name);
}

fn is_left(trial: &Trial, file: &[(u64, u32, u64)]) -> bool {
    file.iter().all(|(first, count, word)| {
        let is = trial.holds(*first, *count, *word);
        is && !trial.holds(*first, *count, word.wrapping_add(1))
    })
}

// What goes wrong while the trial system's file is opened, the room of the sink, the sectors that disk 1 has
// then, the syncs, and what the sink is told.
static OPENINGS: [(Fault, usize, u64, u32, &str); 5] = [
    (Fault::Nothing, ROOM, 300, 1, ""),
    (
        Fault::Held("hdisk1.img"),
        ROOM,
        0,
        0,
        "lvm: hdisk1.img is in use by another program\n",
    ),
    (
        Fault::Held("."),
        ROOM,
        0,
        0,
        "lvm: this folder is in use by another program\n",
    ),
    (
        Fault::Syncs,
        ROOM,
        0,
        0,
        "lvm: hdisk1.img can't be opened\n",
    ),
    (Fault::Held("hdisk1.img"), 4, 0, 0, "lvm:"),
];

#[test]
fn what_is_not_used_is_said(rt: HostRuntime) {
    for (fault, room, size, syncs, said) in &OPENINGS {
        let trial = Trial::new(&rt, true, 300, 1000);
        trial.set_fault(*fault);
        let mut err = sink(&rt, *room);
        let shelf = FileShelf::open(&&trial, rt.alloc(), &mut err).expect(&rt, "memory");
        let has = (shelf.disks(), sectors(&shelf, 1), trial.counts());
        check(&rt, has == (2, *size, (0, *syncs)), said);
        check(&rt, err.bytes() == said.as_bytes(), said);
    }
}

// Images of 20 and of 300 sectors, the second with some bytes more. What is there isn't written over, and
// nothing is written before a disk is chosen.
fn make_images<R: Files>(rt: &R) -> [bool; 5]
where
    R::File: Exclusive,
{
    let mut sink = ImageSink::new(rt);
    let unchosen = sink.write(b"a") == Put::Failed;
    let small = makes_image(&mut sink, 0, 20);
    let large = makes_image(&mut sink, 3, 300);
    let more = write_all(&mut sink, &[7; 100]).is_ok() && sink.settle().is_ok();
    sink.choose(0);
    [
        unchosen,
        small,
        large,
        more,
        sink.is_taken() && sink.write(b"a") == Put::Failed,
    ]
}

fn makes_image<S: Images>(sink: &mut S, disk: u16, sectors: u32) -> bool {
    sink.choose(disk);
    for _ in 0..sectors {
        if write_all(sink, &[0; 512]).is_err() {
            return false;
        }
    }
    true
}

// Of the system's files.
static WHOLE: [(Transfer, End); 7] = [
    (Write(3, 18, 256, 5000), Well),
    (Read(3, 18, 256, 5000), Well),
    (Read(3, 19, 255, 5001), Well),
    (Read(3, 17, 1, 0), Well),
    (Read(3, 274, 1, 0), Well),
    (Read(0, 19, 1, 0), Well),
    (Read(0, 19, 2, 0), Refused),
];

// A file that has become shorter isn't made longer again.
static SHORTER: [(Transfer, End); 3] = [
    (Write(3, 17, 2, 5), Failed),
    (Read(3, 17, 2, 5), Failed),
    (Write(3, 16, 2, 5), Well),
];

static GONE: [(Transfer, End); 1] = [(Write(3, 16, 2, 5), Failed)];

fn see_transfers<S: Shelf>(
    rt: &(impl Abort + AllocGlobal),
    shelf: &mut S,
    what: &str,
    all: &[(Transfer, End)],
) {
    for (k, (it, end)) in all.iter().enumerate() {
        check_at(rt, carry_out(rt, shelf, *it) == *end, what, k);
    }
}

fn sizes<S: Shelf>(shelf: &S) -> (u16, [u64; 5]) {
    (
        shelf.disks(),
        [0, 1, 2, 3, 4].map(|disk| sectors(shelf, disk)),
    )
}

fn shorten(rt: &(impl Abort + Files)) {
    let file = OpenOptions::new()
        .write(true)
        .open(rt, "hdisk3.img")
        .expect(rt, "a file");
    file.set_len(18 * 512 + 511).expect(rt, "a shorter file");
}

fn see_bytes(rt: &(impl Abort + Files + AllocGlobal)) {
    let bytes = fs::read(rt, "hdisk3.img").expect(rt, "the file");
    let at = bytes.iter().position(|byte| *byte != 0);
    check(rt, bytes.len() == 300 * 512 + 100, "the length");
    check(rt, at == Some(18 * 512 + 6), "the first byte");
    check(rt, are_filled(&bytes, 18, 256, 5000), "the words");
    check(rt, !are_filled(&bytes, 18, 256, 5001), "no others");
}

fn len_of(rt: &(impl Abort + Files)) -> u64 {
    fs::metadata(rt, "hdisk3.img").expect(rt, "the file").len()
}

// Works on the images through a shelf, and takes them away under it.
fn see_work<S: Shelf>(rt: &(impl Abort + Files + AllocGlobal), shelf: &mut S) {
    see_transfers(rt, shelf, "whole", &WHOLE);
    see_bytes(rt);
    shorten(rt);
    see_transfers(rt, shelf, "shorter", &SHORTER);
    check(rt, len_of(rt) == 18 * 512 + 511, "the shorter length");
    fs::remove_file(rt, "hdisk3.img").expect(rt, "the file");
    see_transfers(rt, shelf, "gone", &GONE);
    check(rt, faults(shelf, 3) == 2, "the faults");
}

fn remove_all<R: Files>(rt: &R) {
    for name in ["hdisk0.img", "hdisk3.img"] {
        let _ = fs::remove_file(rt, name);
    }
    let _ = fs::remove_dir(rt, "hdisk4.img");
}

// A shelf of the system's files, which has these disks, and says this where it is opened.
fn open_shelf<R: Abort + Files + AllocGlobal>(
    rt: &R,
    disks: (u16, [u64; 5]),
    said: &str,
) -> FileShelf<R::File>
where
    R::File: Exclusive,
{
    let mut err = sink(rt, ROOM);
    let shelf = FileShelf::open(rt, rt.alloc(), &mut err).expect(rt, "memory");
    check(rt, sizes(&shelf) == disks, "the disks");
    check(rt, err.bytes() == said.as_bytes(), "what is said");
    shelf
}

// It runs in a folder of its own files. Part of a sector at the end isn't one, and a folder isn't a file. Of
// two shelves at once the second has no file.
#[test]
fn images_are_made_written_and_read(rt: HostRuntime) {
    remove_all(&rt);
    let _ = open_shelf(&rt, (1, [0; 5]), "");
    check(&rt, make_images(&rt) == [true; 5], "the images");
    fs::create_dir(&rt, "hdisk4.img").expect(&rt, "a folder");
    let disks = (5, [20, 0, 0, 300, 0]);
    let mut shelf = open_shelf(&rt, disks, "lvm: hdisk4.img can't be opened\n");
    let held = "lvm: this folder is in use by another program\n";
    let _ = open_shelf(&rt, (5, [0; 5]), held);
    see_work(&rt, &mut shelf);
    remove_all(&rt);
}
