//! Writes that wait for an entry of the cache, or for a note.
use crate::tests::fixtures::{MIRROR, Setup, begin, check, close, turn, write};
use crate::tests::steps::{Step, does, play, play_out};
use lvm_disk::Shelf;
use lvm_memory::{Act, Planned};
use lvm_ranges::below::driver::Driver;
use lvm_session::{Taken, Turned};
use std::process::Abort;

// How many transfers are out at most before the first request has landed.
fn most_out<S: Shelf>(rt: &impl Abort, driver: &mut Driver<S>) -> u32 {
    let entries = driver.history().len();
    let mut most = 0;
    for _ in 0..2_000 {
        let moved = turn(rt, driver) == Turned::Moved;
        if !moved || driver.history().len() > entries {
            return most;
        }
        if most < driver.flights() {
            most = driver.flights();
        }
    }
    most
}

// Submits a write to each of 63 track groups.
fn write_63<S: Shelf>(rt: &impl Abort, driver: &mut Driver<S>) {
    for k in 0..63 {
        check(rt, write(rt, driver, 256 * k, k) == Ok(k + 1), "taken");
    }
}

fn are_done<S: Shelf>(driver: &mut Driver<S>, most: u64) -> bool {
    let mut done = true;
    for id in 0..most {
        done = driver.take(1, id + 1) == Taken::Done && done;
    }
    done
}

// 62 of the track groups are pinned, and named by one note on each disk. Their writes make 124 transfers, and the last
// one two more, behind two notes more. Each transfer is started by one call of the disks, and ended by another.
#[test]
fn the_cache_has_62_entries(rt: HostRuntime) {
    let setup = Setup {
        mib: 8,
        table: 64,
        pool: 256,
        ..MIRROR
    };
    let shelf = fill_cache(&rt, begin(&rt, &setup, &[]));
    check(&rt, shelf.calls() == 2 * (2 + 124 + 2 + 2), "as many calls");
}

const LANDED: [(&str, Step); 1] = [("all have landed", Step::Drain(Ok(())))];

fn fill_cache<S: Shelf + Drop>(rt: &impl Abort, driver: Driver<S>) -> S {
    let mut driver = driver;
    write_63(rt, &mut driver);
    let most = most_out(rt, &mut driver);
    check(rt, most == 124, "62 writes are under way");
    play(rt, &mut driver, &LANDED);
    check(rt, are_done(&mut driver, 63), "and are done");
    close(rt, driver)
}

// ---- what is passed over

// 62 of the track groups are pinned by writes whose transfers are passed over three times. So the write of another one
// waits, and one that was submitted after it for a group that is pinned doesn't. Once the first has landed, a note on
// each disk names the other group in its place.
#[test]
fn a_write_waits_for_an_entry_until_one_has_landed(rt: HostRuntime) {
    let mut plan = [Planned {
        call: 0,
        act: Act::Delay(3),
    }; 124];
    for k in 0..124 {
        plan[k].call = 5 + k as u64;
    }
    let setup = Setup {
        mib: 8,
        table: 64,
        pool: 256,
        ..MIRROR
    };
    wait_for_entry(&rt, begin(&rt, &setup, &plan));
}

const ENTRY: [(&str, Step); 8] = [
    ("taken too", Step::Write(1281, 9, Ok(64))),
    ("62 are under way", Step::UntilIdle(124)),
    ("it needs no entry", Step::Take(64, Taken::Done)),
    ("this one does", Step::Take(63, Taken::NotYet)),
    ("the first is done", Step::UntilFirst(122)),
    ("now it may be pinned", Step::Take(63, Taken::NotYet)),
    ("by two notes", Step::Turns(3, 124)),
    ("all is done", Step::Drain(Ok(()))),
];

fn wait_for_entry<S: Shelf + Drop>(rt: &impl Abort, driver: Driver<S>) {
    let mut driver = driver;
    write_63(rt, &mut driver);
    play(rt, &mut driver, &ENTRY);
    for k in 1..63 {
        does(rt, &mut driver, "done", Step::Take(k + 1, Taken::Done));
    }
    close(rt, driver);
}

// The first note of the first disk is passed over, so the next one of that disk waits for it, and with it the data of
// the second write; those of the first wait for the note itself. The notes of the second disk don't.
#[test]
fn a_note_waits_for_the_one_before_it(rt: HostRuntime) {
    let late = [Planned {
        call: 1,
        act: Act::Delay(5),
    }];
    wait_for_note(&rt, begin(&rt, &MIRROR, &late));
}

const NOTE: [(&str, Step); 12] = [
    ("taken", Step::Write(0, 1, Ok(1))),
    ("two notes", Step::Turns(4, 2)),
    ("taken too", Step::Write(256, 2, Ok(2))),
    ("the late note alone", Step::UntilIdle(1)),
    ("the first waits for it", Step::Take(1, Taken::NotYet)),
    ("so does the second", Step::Take(2, Taken::NotYet)),
    ("the late note is still out", Step::UntilIdle(1)),
    ("the first still waits", Step::Take(1, Taken::NotYet)),
    ("and the second", Step::Take(2, Taken::NotYet)),
    ("the late note is out once more", Step::UntilIdle(1)),
    ("the first waits once more", Step::Take(1, Taken::NotYet)),
    ("with the second", Step::Take(2, Taken::NotYet)),
];

const NOTED: [(&str, Step); 3] = [
    ("all is done", Step::Drain(Ok(()))),
    ("the first", Step::Take(1, Taken::Done)),
    ("the second", Step::Take(2, Taken::Done)),
];

fn wait_for_note<S: Shelf + Drop>(rt: &impl Abort, driver: Driver<S>) {
    let mut driver = driver;
    play(rt, &mut driver, &NOTE);
    play_out(rt, driver, &NOTED);
}
