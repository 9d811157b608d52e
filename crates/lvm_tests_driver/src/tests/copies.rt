//! A copy that is brought up.
use crate::tests::fixtures::{MIRROR, MODES, Setup, begin, turn};
use crate::tests::steps::{Step, break_off, does, play, play_out};
use lvm_disk::{Arrange, Shelf};
use lvm_ranges::below::driver::Driver;
use lvm_session::{CopyFault, CopyState, Taken};
use std::process::Abort;

const STALE: Setup = Setup {
    stale: true,
    ..MIRROR
};

// Writes a block of each track group, with some turns between.
fn write_all<S: Shelf>(rt: &impl Abort, driver: &mut Driver<S>) {
    for k in 0..8 {
        does(rt, driver, "taken", Step::Write(256 * k, 21 + k, Ok(k + 2)));
        for _ in 0..5 {
            turn(rt, driver);
        }
    }
}

fn are_there<S: Shelf>(rt: &impl Abort, driver: &mut Driver<S>) {
    for k in 0..8 {
        does(rt, driver, "written", Step::Take(k + 2, Taken::Done));
    }
    for k in 0..8 {
        does(rt, driver, "stands", Step::Got(256 * k, Ok(21 + k)));
    }
}

const FIRST: [(&str, Step); 3] = [
    ("on one copy", Step::Written(255, 7, Taken::Done)),
    ("opened", Step::Open(1, 0, 2, Ok(()))),
    (
        "it is at the first",
        Step::Copy(CopyState::Running { cursor: 0 }),
    ),
];

const UP: [(&str, Step); 4] = [
    ("all is done", Step::Drain(Ok(()))),
    ("brought up", Step::Close(CopyState::Done)),
    ("fresh", Step::Stale(1, false)),
    ("the other fails", Step::Order(Arrange::Fail(0))),
];

const BEFORE: [(&str, Step); 1] = [("what stood before", Step::Got(255, Ok(7)))];

// The second copy is brought up, and has what was written and what stood before.
fn bring_up<S: Shelf + Drop>(rt: &impl Abort, driver: Driver<S>) {
    let mut driver = driver;
    play(rt, &mut driver, &FIRST);
    write_all(rt, &mut driver);
    play(rt, &mut driver, &UP);
    are_there(rt, &mut driver);
    play_out(rt, driver, &BEFORE);
}

static POOLS: [u32; 2] = [1, 16];

#[test]
fn a_copy_is_brought_up_beside_writes(rt: HostRuntime) {
    for mode in &MODES {
        for pool in &POOLS {
            let setup = Setup {
                mode: *mode,
                pool: *pool,
                ..STALE
            };
            bring_up(&rt, begin(&rt, &setup, &[]));
        }
    }
}

const REFUSED: [(&str, Step); 7] = [
    (
        "no such volume",
        Step::Open(2, 0, 2, Err(CopyFault::NoVolume)),
    ),
    (
        "no such partition",
        Step::Open(1, 1, 2, Err(CopyFault::OutOfRange)),
    ),
    ("no copy 0", Step::Open(1, 0, 0, Err(CopyFault::OutOfRange))),
    ("no copy 3", Step::Open(1, 0, 3, Err(CopyFault::OutOfRange))),
    ("fresh", Step::Open(1, 0, 1, Err(CopyFault::AlreadyFresh))),
    ("opened", Step::Open(1, 0, 2, Ok(()))),
    ("another is open", Step::Open(2, 0, 2, Err(CopyFault::Busy))),
];

#[test]
fn copies_are_refused_in_their_order(rt: HostRuntime) {
    break_off(&rt, begin(&rt, &STALE, &[]), &REFUSED);
}
