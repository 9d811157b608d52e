//! Writes that go to a copy which is being brought up, and what they do where its disk fails.
use crate::tests::fixtures::{
    MODES, STALE, Setup, begin, check, close, close_copy, drain, got, is_stale, open_copy, order,
    turn, write,
};
use lvm_core::CommitFault;
use lvm_disk::{Arrange, Shelf};
use lvm_memory::{Act, Planned};
use lvm_num::Mode;
use lvm_ranges::below::Driver;
use lvm_session::{CopyState, Taken};
use std::process::Abort;

fn turns<S: Shelf>(rt: &impl Abort, driver: &mut Driver<S>, most: u32) {
    for _ in 0..most {
        turn(rt, driver);
    }
}

// The second copy is opened, and after so many turns a block is written.
fn write_after<S: Shelf>(rt: &impl Abort, driver: &mut Driver<S>, before: u32) {
    check(rt, open_copy(rt, driver, 1, 0, 2) == Ok(()), "opened");
    turns(rt, driver, before);
    check(rt, write(rt, driver, 3, 9) == Ok(1), "taken");
}

// A copy takes four turns for each of its eight track groups, and five for the status that clears it.
const TURNS: u32 = 37;

// The write stands on the second copy, wherever the copying was.
fn stands_on_both<S: Shelf + Drop>(rt: &impl Abort, driver: Driver<S>, before: u32) {
    let mut driver = driver;
    write_after(rt, &mut driver, before);
    check(rt, drain(rt, &mut driver) == Ok(()), "all is done");
    check(rt, driver.take(1, 1) == Taken::Done, "the write too");
    check(rt, close_copy(&mut driver) == CopyState::Done, "brought up");
    order(rt, &mut driver, Arrange::Fail(0));
    check(rt, got(rt, &mut driver, 3) == Ok(9), "it stands on it");
    close(rt, driver);
}

#[test]
fn a_write_goes_to_what_is_copied(rt: HostRuntime) {
    for mode in &MODES {
        for before in 0..TURNS + 2 {
            let setup = Setup {
                mode: *mode,
                ..STALE
            };
            stands_on_both(&rt, begin(&rt, &setup, &[]), before);
        }
    }
}

// So many turns after the write was submitted the disk of the second copy fails. Nothing stands still: where a note on
// that disk was waited for, the write is admitted to the first copy alone, also once the copying is done.
fn goes_on_alone<S: Shelf + Drop>(
    rt: &impl Abort,
    driver: Driver<S>,
    before: u32,
    between: u32,
) -> bool {
    let mut driver = driver;
    write_after(rt, &mut driver, before);
    turns(rt, &mut driver, between);
    let done = driver.copy_state() == CopyState::Done;
    order(rt, &mut driver, Arrange::Fail(1));
    check(rt, drain(rt, &mut driver) == Ok(()), "nothing stands still");
    check(rt, driver.take(1, 1) == Taken::Done, "the write is done");
    check(rt, got(rt, &mut driver, 3) == Ok(9), "it is read");
    close_copy(&mut driver);
    close(rt, driver);
    done
}

#[test]
fn a_write_waits_for_no_note_of_a_missing_disk(rt: HostRuntime) {
    let mut done = false;
    for before in 30..TURNS {
        for between in 0..12 {
            done = goes_on_alone(&rt, begin(&rt, &STALE, &[]), before, between) || done;
        }
    }
    check(&rt, done, "also once the copying was done");
}

// The first track group is copied by four calls. Both transfers of the write are passed over while the others are, and
// until the three of the status are out that clears the copy. Then the write is done on the first copy and fails on the
// second, so that its staleness is wanted again; and the clearing is written to the second disk alone.
const MINORITY: [Planned; 6] = [
    Planned {
        call: 5,
        act: Act::Delay(14),
    },
    Planned {
        call: 6,
        act: Act::Delay(14),
    },
    Planned {
        call: 39,
        act: Act::Fail(1),
    },
    Planned {
        call: 40,
        act: Act::Heal(1),
    },
    Planned {
        call: 40,
        act: Act::Fail(0),
    },
    Planned {
        call: 40,
        act: Act::Fail(2),
    },
];

// A later session may find that status, by which the second copy is fresh, so the write isn't answered as done.
fn is_left_open<S: Shelf + Drop>(rt: &impl Abort, driver: Driver<S>) {
    let mut driver = driver;
    write_after(rt, &mut driver, 4);
    let off = Err(CommitFault::WentOff { have: 1, total: 3 });
    check(rt, drain(rt, &mut driver) == off, "it goes off");
    check(rt, driver.take(1, 1) == Taken::Off, "the write with it");
    check(rt, is_stale(&driver, 1), "the copy stays stale");
    close(rt, driver);
}

#[test]
fn what_a_minority_has_stays_in_flight(rt: HostRuntime) {
    let setup = Setup {
        mode: Mode::Off,
        ..STALE
    };
    is_left_open(&rt, begin(&rt, &setup, &MINORITY));
}
