//! A copy that moves to another partition, beside writes.
use crate::tests::fixtures::{MIRROR, MODES, Setup, begin, check, close, drain, goes_on, turn};
use crate::tests::steps::{Step, does, play};
use lvm_core::CommitFault;
use lvm_disk::{Arrange, Shelf};
use lvm_memory::{Act, Planned};
use lvm_num::Pp;
use lvm_ranges::below::driver::Driver;
use lvm_session::{CopyFault, CopyState, OpenFault, Taken};
use lvm_transfer::Patience;
use std::process::Abort;

/// A partition of the third disk, which no volume has.
pub const FREE: Pp = Pp { disk: 2, pp: 0 };

/// Opens a move of a copy, from 1, to a partition on whose disk no other copy of its logical partition stands.
pub fn open_move<S: Shelf>(
    rt: &(impl Abort + AllocGlobal),
    driver: &mut Driver<S>,
    lv: u16,
    lp: u32,
    number: u8,
    to: Pp,
) -> Result<(), OpenFault> {
    goes_on(rt, driver);
    assert!(rt; driver.is_apart(lv, lp, number, to));
    driver.open_move(rt.alloc(), lv, lp, number, to)
}

/// Turns until the move is done, and commits it.
pub fn commit<S: Shelf>(
    rt: &impl Abort,
    driver: &mut Driver<S>,
    left: u32,
) -> Result<(), CommitFault> {
    goes_on(rt, driver);
    let mut patience = Patience { left: 1_000 };
    driver.drain(&mut patience)?;
    assert!(rt; driver.is_moving());
    assert!(rt; matches!(driver.copy_state(), CopyState::Done));
    assert!(rt; driver.stamp().epoch != 0);
    let mut patience = Patience { left };
    driver.commit_move(&mut patience)
}

// The second copy begins to move to the third disk.
fn begin_move<S: Shelf>(rt: &(impl Abort + AllocGlobal), driver: &mut Driver<S>) {
    check(rt, !driver.is_moving(), "none moves");
    let opened = open_move(rt, driver, 1, 0, 2, FREE);
    check(rt, opened == Ok(()), "opened");
    check(rt, driver.is_moving(), "one moves");
}

// A write of a block in each track group, with some turns between.
fn write_all<S: Shelf>(rt: &impl Abort, driver: &mut Driver<S>) {
    for k in 0..8 {
        does(rt, driver, "taken", Step::Write(256 * k, 21 + k, Ok(k + 2)));
        for _ in 0..3 {
            turn(rt, driver);
        }
    }
}

// A write waits while the move is done,
const UNTIL_DONE: [(&str, Step); 5] = [
    ("all is done", Step::Drain(Ok(()))),
    ("it is whole", Step::Copy(CopyState::Done)),
    ("taken", Step::Write(1, 9, Ok(10))),
    ("nothing is to be made", Step::Drain(Ok(()))),
    ("it waits", Step::Take(10, Taken::NotYet)),
];

// and lands once it is no more.
const BEHIND: [(&str, Step); 3] = [
    ("closed", Step::Copy(CopyState::Closed)),
    ("it goes on", Step::Drain(Ok(()))),
    ("it is written", Step::Take(10, Taken::Done)),
];

// What was written stands on the second copy.
fn stands<S: Shelf>(rt: &impl Abort, driver: &mut Driver<S>) {
    for k in 0..8 {
        does(rt, driver, "written", Step::Take(k + 2, Taken::Done));
    }
    does(rt, driver, "one fails", Step::Order(Arrange::Fail(0)));
    for k in 0..8 {
        does(rt, driver, "stands", Step::Got(256 * k, Ok(21 + k)));
    }
    does(rt, driver, "so does this", Step::Got(1, Ok(9)));
}

// The partition of the volume's second copy.
fn second<S: Shelf>(driver: &Driver<S>) -> Option<Pp> {
    let row = driver.descriptor().lvs.as_slice().first()?;
    row.map.as_slice().get(1).copied()
}

// The move is committed where it is asked for, and else given up.
fn move_beside_writes<S: Shelf + Drop>(
    rt: &(impl Abort + AllocGlobal),
    driver: Driver<S>,
    commits: bool,
) {
    let mut driver = driver;
    does(
        rt,
        &mut driver,
        "before",
        Step::Written(255, 7, Taken::Done),
    );
    begin_move(rt, &mut driver);
    write_all(rt, &mut driver);
    play(rt, &mut driver, &UNTIL_DONE);
    if commits {
        check(rt, commit(rt, &mut driver, 1_000) == Ok(()), "committed");
    } else {
        does(rt, &mut driver, "given up", Step::Close(CopyState::Done));
    }
    check(rt, !driver.is_moving(), "none moves again");
    let place = if commits { FREE } else { Pp { disk: 1, pp: 0 } };
    check(rt, second(&driver) == Some(place), "where it stands");
    play(rt, &mut driver, &BEHIND);
    stands(rt, &mut driver);
    close(rt, driver);
}

static POOLS: [u32; 2] = [1, 16];

#[test]
fn a_copy_moves_beside_writes(rt: HostRuntime) {
    for mode in &MODES {
        for pool in &POOLS {
            let setup = Setup {
                mode: *mode,
                pool: *pool,
                ..MIRROR
            };
            move_beside_writes(&rt, begin(&rt, &setup, &[]), false);
            move_beside_writes(&rt, begin(&rt, &setup, &[]), true);
        }
    }
}

// The disk of the partition fails after so many turns, which ends the move. Both copies go on without it.
fn ends_with_its_disk<S: Shelf + Drop>(
    rt: &(impl Abort + AllocGlobal),
    driver: Driver<S>,
    turns: u32,
) {
    let mut driver = driver;
    begin_move(rt, &mut driver);
    for _ in 0..turns {
        turn(rt, &mut driver);
    }
    does(rt, &mut driver, "it fails", Step::Order(Arrange::Fail(2)));
    does(rt, &mut driver, "written", Step::Written(3, 5, Taken::Done));
    check(rt, drain(rt, &mut driver) == Ok(()), "all is done");
    does(
        rt,
        &mut driver,
        "ended",
        Step::Close(CopyState::SyncFailed { disk: 2 }),
    );
    check(rt, !driver.is_moving(), "none moves");
    does(rt, &mut driver, "stands", Step::Got(3, Ok(5)));
    close(rt, driver);
}

#[test]
fn a_move_ends_with_its_disk(rt: HostRuntime) {
    for turns in 0..30 {
        ends_with_its_disk(&rt, begin(&rt, &MIRROR, &[]), turns);
    }
}

// Behind the end of the session the move is closed, and what waited has landed so.
fn has_ended<S: Shelf + Drop>(rt: &impl Abort, driver: Driver<S>, how: Taken) {
    let mut driver = driver;
    does(rt, &mut driver, "closed", Step::Copy(CopyState::Closed));
    does(rt, &mut driver, "landed", Step::Take(1, how));
    check(
        rt,
        second(&driver) == Some(Pp { disk: 1, pp: 0 }),
        "where it stood",
    );
    close(rt, driver);
}

// A write waits for a move that is done.
fn done_beside_write<S: Shelf>(rt: &(impl Abort + AllocGlobal), driver: &mut Driver<S>) {
    begin_move(rt, driver);
    does(rt, driver, "all is done", Step::Drain(Ok(())));
    does(rt, driver, "taken", Step::Write(1, 9, Ok(1)));
}

// Without the votes of the first two disks it isn't committed.
#[test]
fn a_commit_goes_off_without_votes(rt: HostRuntime) {
    let mut driver = begin(&rt, &MIRROR, &[]);
    done_beside_write(&rt, &mut driver);
    does(&rt, &mut driver, "fails", Step::Order(Arrange::Fail(0)));
    does(&rt, &mut driver, "fails", Step::Order(Arrange::Fail(1)));
    let went = commit(&rt, &mut driver, 1_000);
    let off = CommitFault::WentOff { have: 1, total: 3 };
    check(&rt, went == Err(off), "off");
    has_ended(&rt, driver, Taken::Off);
}

// Where one disk fails it is committed by the other two, and the copies on it are stale.
#[test]
fn a_commit_outlives_a_disk(rt: HostRuntime) {
    for disk in 0..3 {
        let mut driver = begin(&rt, &MIRROR, &[]);
        done_beside_write(&rt, &mut driver);
        does(&rt, &mut driver, "fails", Step::Order(Arrange::Fail(disk)));
        check(&rt, commit(&rt, &mut driver, 1_000) == Ok(()), "committed");
        check(&rt, second(&driver) == Some(FREE), "where it stands");
        does(&rt, &mut driver, "goes on", Step::Drain(Ok(())));
        does(&rt, &mut driver, "landed", Step::Take(1, Taken::Done));
        does(&rt, &mut driver, "stale", Step::Stale(disk, disk != 1));
        does(&rt, &mut driver, "stands", Step::Got(1, Ok(9)));
        close(&rt, driver);
    }
}

// How the commit ends, if it comes to it.
fn commit_under<S: Shelf + Drop>(
    rt: &(impl Abort + AllocGlobal),
    driver: Driver<S>,
    left: u32,
) -> Option<Result<(), CommitFault>> {
    let mut driver = driver;
    begin_move(rt, &mut driver);
    if drain(rt, &mut driver).is_err() {
        return None;
    }
    does(rt, &mut driver, "taken", Step::Write(1, 9, Ok(1)));
    let ended = commit(rt, &mut driver, left);
    check(rt, !driver.is_moving(), "none moves");
    if ended == Err(CommitFault::Dark) {
        has_ended(rt, driver, Taken::Dark);
    } else {
        driver.close();
    }
    Some(ended)
}

// The eight track groups take 32 calls. The power is cut at each call about the commit: some find it dark, one doesn't.
#[test]
fn a_commit_in_the_dark(rt: HostRuntime) {
    let mut dark = 0_u32;
    let mut done = 0_u32;
    for call in 30..70 {
        let cut = [Planned {
            call,
            act: Act::Cut(call),
        }];
        match commit_under(&rt, begin(&rt, &MIRROR, &cut), 1_000) {
            None => {}
            Some(Ok(())) => done = done.saturating_add(1),
            Some(Err(why)) => {
                check(&rt, why == CommitFault::Dark, "dark");
                dark = dark.saturating_add(1);
            }
        }
    }
    check(&rt, dark >= 6, "at each transfer of it");
    check(&rt, done >= 1, "done before the cut");
}

// Nothing is heard of one of its transfers, with no patience.
#[test]
fn a_commit_is_given_up_without_patience(rt: HostRuntime) {
    let mut stuck = 0_u32;
    for call in 30..70 {
        let delay = [Planned {
            call,
            act: Act::Delay(2),
        }];
        if commit_under(&rt, begin(&rt, &MIRROR, &delay), 0) == Some(Err(CommitFault::Stuck)) {
            stuck = stuck.saturating_add(1);
        }
    }
    check(&rt, stuck >= 3, "at each start of it");
}

// What is asked for, and why it isn't opened.
static REFUSED: [(u16, u32, u8, Pp, OpenFault); 6] = [
    (2, 0, 2, FREE, OpenFault::NoVolume),
    (1, 1, 2, FREE, OpenFault::OutOfRange),
    (1, 0, 0, FREE, OpenFault::OutOfRange),
    (1, 0, 3, FREE, OpenFault::OutOfRange),
    (1, 0, 2, Pp { disk: 1, pp: 0 }, OpenFault::InUse),
    (1, 0, 2, Pp { disk: 2, pp: 1 }, OpenFault::InUse),
];

fn refuse_all<S: Shelf + Drop>(rt: &(impl Abort + AllocGlobal), driver: Driver<S>) {
    let mut driver = driver;
    for (lv, lp, number, to, why) in &REFUSED {
        let opened = open_move(rt, &mut driver, *lv, *lp, *number, *to);
        check(rt, opened == Err(*why), "refused");
    }
    begin_move(rt, &mut driver);
    let again = open_move(rt, &mut driver, 1, 0, 2, FREE);
    check(rt, again == Err(OpenFault::Busy), "a move is open");
    does(
        rt,
        &mut driver,
        "nor a copy",
        Step::Open(1, 0, 2, Err(CopyFault::Busy)),
    );
    driver.close();
}

#[test]
fn moves_are_refused_in_their_order(rt: HostRuntime) {
    refuse_all(&rt, begin(&rt, &MIRROR, &[]));
}
