//! Disks that fail, and power that is cut.
ghost use Rattle.std.specs.Prelude.{◌≤◌, ◌<◌};

use crate::tests::fixtures::{
    MIRROR, MODES, POLICIES, Setup, begin, check, close, is_stale, turn, written,
};
use crate::tests::steps::{Step, does, play, play_out};
use lvm_core::CommitFault;
use lvm_disk::{Arrange, Shelf};
use lvm_memory::{Act, Planned};
use lvm_num::{Mode, Policy};
use lvm_ranges::below::driver::Driver;
use lvm_session::{AskFault, CopyFault, Taken, Turned};
use std::process::Abort;

static WORDS: [u64; 3] = [0, 0x5555_5555_5555_5555, u64::MAX];

// The calls of a write of two copies, of which the last two end its transfers. It takes four. An active one takes four
// before them for its notes; a passive one six for the status, the last of which goes on beside the data.
fn calls_of(mode: Mode) -> u64
    ensures { (4 ≤ result) × (result ≤ 10) }
{
    match mode {
        Mode::Active => 8,
        Mode::Passive => 10,
        Mode::Off => 4,
    }
}

// The call at which the transfer to a copy ends.
fn end_of(setup: &Setup, disk: u16) -> u64 {
    let calls = calls_of(setup.mode);
    if disk == 1 {
        calls
    } else if setup.policy == Policy::Sequential {
        calls - 2
    } else {
        calls - 1
    }
}

// A write of two copies, of which one is on a disk that fails: whether that copy is stale. It is done all the same, and
// can be read from each copy that isn't.
fn is_stale_after<S: Shelf + Drop>(rt: &impl Abort, driver: Driver<S>, disk: u16) -> bool
    requires { disk < 2 }
{
    let mut driver = driver;
    let other = 1 - disk;
    does(
        rt,
        &mut driver,
        "it is done",
        Step::Written(3, 9, Taken::Done),
    );
    does(rt, &mut driver, "on the other", Step::Stale(other, false));
    let stale = is_stale(&driver, disk);
    let alone = if stale { Err(Taken::ReadFailed) } else { Ok(9) };
    does(rt, &mut driver, "it is read", Step::Got(3, Ok(9)));
    does(
        rt,
        &mut driver,
        "it heals",
        Step::Order(Arrange::Heal(disk)),
    );
    does(
        rt,
        &mut driver,
        "the other fails",
        Step::Order(Arrange::Fail(other)),
    );
    does(
        rt,
        &mut driver,
        "it is read from the one copy",
        Step::Got(3, alone),
    );
    close(rt, driver);
    stale
}

// The same, where the disk fails from this call on.
fn goes_stale(rt: &(impl Abort + AllocGlobal), setup: &Setup, disk: u16, call: u64) -> bool
    requires { disk < 2 }
{
    let fails = [Planned {
        call,
        act: Act::Fail(disk),
    }];
    is_stale_after(rt, begin(rt, setup, &fails), disk)
}

// Each of the disks fails from each call of a write on, and from the one after them.
fn fail_each(rt: &(impl Abort + AllocGlobal), setup: &Setup) {
    for disk in 0..2 {
        for call in 1..calls_of(setup.mode) + 2 {
            let fails = call <= end_of(setup, disk);
            let stale = goes_stale(rt, setup, disk, call);
            check(rt, stale == fails, "where it failed in time");
        }
    }
}

#[test]
fn a_copy_that_a_write_fails_on_is_stale(rt: HostRuntime) {
    for mode in &MODES {
        for policy in &POLICIES {
            let setup = Setup {
                mode: *mode,
                policy: *policy,
                ..MIRROR
            };
            fail_each(&rt, &setup);
        }
    }
}

const WENT_OFF: [(&str, Step); 8] = [
    ("a disk fails", Step::Order(Arrange::Fail(0))),
    ("another fails", Step::Order(Arrange::Fail(1))),
    ("off", Step::Written(0, 1, Taken::Off)),
    ("one vote of three", Step::Votes(1, 3)),
    (
        "it went off",
        Step::Drain(Err(CommitFault::WentOff { have: 1, total: 3 })),
    ),
    ("nothing is made", Step::Turn(Turned::Off)),
    ("nothing is taken", Step::Write(0, 1, Err(AskFault::Off))),
    (
        "nothing is opened",
        Step::Open(1, 0, 1, Err(CopyFault::Off)),
    ),
];

#[test]
fn without_its_votes_the_session_is_over(rt: HostRuntime) {
    let setup = Setup {
        mode: Mode::Off,
        copies: 3,
        ..MIRROR
    };
    play_out(&rt, begin(&rt, &setup, &[]), &WENT_OFF);
}

const IN_THE_DARK: [(&str, Step); 2] = [
    ("nothing is taken", Step::Write(5, 9, Err(AskFault::Dark))),
    ("nothing is made", Step::Drain(Err(CommitFault::Dark))),
];

// How a write ends, and how the session does then.
fn ending<S: Shelf + Drop>(rt: &impl Abort, driver: Driver<S>) -> (Taken, Turned) {
    let mut driver = driver;
    let taken = written(rt, &mut driver, 5, 9);
    let ended = turn(rt, &mut driver);
    if ended == Turned::Dark {
        play(rt, &mut driver, &IN_THE_DARK);
    }
    close(rt, driver);
    (taken, ended)
}

// The same, where the power is cut at this call.
fn cut_at(rt: &(impl Abort + AllocGlobal), mode: Mode, word: u64, call: u64) -> (Taken, Turned) {
    let cut = [Planned {
        call,
        act: Act::Cut(word),
    }];
    ending(rt, begin(rt, &Setup { mode, ..MIRROR }, &cut))
}

// The power is cut at each call of a write, and at the one after them.
fn cut_each(rt: &(impl Abort + AllocGlobal), mode: Mode, word: u64) {
    let calls = calls_of(mode);
    for call in 1..calls + 1 {
        let ended = cut_at(rt, mode, word, call);
        check(rt, ended == (Taken::Dark, Turned::Dark), "dark");
    }
    let ended = cut_at(rt, mode, word, calls + 1);
    check(
        rt,
        ended == (Taken::Done, Turned::Idle),
        "it has landed before",
    );
}

#[test]
fn a_cut_ends_the_session(rt: HostRuntime) {
    for mode in &MODES {
        for word in &WORDS {
            cut_each(&rt, *mode, *word);
        }
    }
}
