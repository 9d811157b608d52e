//! Stale copies that are brought up by volumes, logical partitions and the group.
use crate::tests::fixtures::{
    FRESH, STALE, Setup, begin, check, close, close_copy, drain, goes_on, got, is_stale, open_copy,
    order, sync, turn, write, written,
};
use lvm_disk::{Arrange, Shelf};
use lvm_memory::{Act, Planned};
use lvm_num::Mode;
use lvm_ranges::below::Driver;
use lvm_ranges::{SyncFault, sync_group, sync_partition, sync_volume};
use lvm_session::{CopyState, Taken};
use lvm_transfer::Patience;
use std::process::Abort;

// ---- what is asked for

fn partition<S: Shelf>(
    rt: &impl Abort,
    driver: &mut Driver<S>,
    lv: u16,
    lp: u32,
) -> Result<u32, SyncFault> {
    goes_on(rt, driver);
    let mut patience = Patience { left: 1_000 };
    sync_partition(driver, lv, lp, &mut patience)
}

fn volume<S: Shelf>(rt: &impl Abort, driver: &mut Driver<S>, lv: u16) -> Result<u32, SyncFault> {
    goes_on(rt, driver);
    let mut patience = Patience { left: 1_000 };
    sync_volume(driver, lv, &mut patience)
}

fn group<S: Shelf>(rt: &impl Abort, driver: &mut Driver<S>) -> Result<u32, SyncFault> {
    goes_on(rt, driver);
    let mut patience = Patience { left: 1_000 };
    sync_group(driver, &mut patience)
}

// What each call answers in turn.
fn each<S: Shelf + Drop>(rt: &impl Abort, driver: Driver<S>) -> [Result<u32, SyncFault>; 3] {
    let mut driver = driver;
    let first = partition(rt, &mut driver, 1, 0);
    let second = volume(rt, &mut driver, 1);
    let third = group(rt, &mut driver);
    close(rt, driver);
    [first, second, third]
}

#[test]
fn a_copy_is_counted_once(rt: HostRuntime) {
    let stale = each(&rt, begin(&rt, &STALE, &[]));
    check(&rt, stale == [Ok(1), Ok(0), Ok(0)], "by the first call");
    let fresh = each(&rt, begin(&rt, &FRESH, &[]));
    check(&rt, fresh == [Ok(0), Ok(0), Ok(0)], "not where it is fresh");
}

// ---- why it isn't begun

// Each call ends so, also where there is no such volume or logical partition.
fn all_end<S: Shelf>(rt: &impl Abort, driver: &mut Driver<S>, why: SyncFault) {
    check(rt, partition(rt, driver, 2, 0) == Err(why), "no volume");
    check(rt, partition(rt, driver, 1, 1) == Err(why), "no partition");
    check(rt, volume(rt, driver, 2) == Err(why), "no volume");
    check(rt, group(rt, driver) == Err(why), "the group");
}

fn are_refused<S: Shelf + Drop>(rt: &impl Abort, driver: Driver<S>) {
    let mut driver = driver;
    let none = Err(SyncFault::NoVolume);
    check(rt, partition(rt, &mut driver, 2, 0) == none, "no volume");
    check(rt, volume(rt, &mut driver, 2) == none, "no volume");
    let past = Err(SyncFault::OutOfRange);
    check(rt, partition(rt, &mut driver, 1, 1) == past, "no partition");
    check(rt, open_copy(rt, &mut driver, 1, 0, 2) == Ok(()), "opened");
    all_end(rt, &mut driver, SyncFault::Busy);
    order(rt, &mut driver, Arrange::Cut(0));
    all_end(rt, &mut driver, SyncFault::Dark);
    close(rt, driver);
}

#[test]
fn a_resync_is_refused_in_its_order(rt: HostRuntime) {
    are_refused(&rt, begin(&rt, &STALE, &[]));
}

fn is_off<S: Shelf + Drop>(rt: &impl Abort, driver: Driver<S>) {
    let mut driver = driver;
    order(rt, &mut driver, Arrange::Fail(0));
    order(rt, &mut driver, Arrange::Fail(1));
    check(rt, written(rt, &mut driver, 0, 1) == Taken::Off, "off");
    all_end(rt, &mut driver, SyncFault::Off);
    close(rt, driver);
}

#[test]
fn without_its_votes_nothing_is_brought_up(rt: HostRuntime) {
    let setup = Setup { copies: 3, ..FRESH };
    is_off(&rt, begin(&rt, &setup, &[]));
}

// The same, where so many numbers are left for the stamps of records.
fn with_numbers(rt: &(impl Abort + AllocGlobal), left: u32) -> [Result<u32, SyncFault>; 3] {
    let setup = Setup {
        seq: u32::MAX.saturating_sub(left),
        ..STALE
    };
    each(rt, begin(rt, &setup, &[]))
}

#[test]
fn a_resync_wants_numbers(rt: HostRuntime) {
    let full = [Err(SyncFault::HistoryFull); 3];
    check(&rt, with_numbers(&rt, 65_535) == full, "too few");
    let first = with_numbers(&rt, 65_536)[0];
    check(&rt, first == Ok(1), "enough");
}

// ---- copies that become stale meanwhile

// A write fails on the second copy, whose disk then heals.
const ONCE: [Planned; 2] = [
    Planned {
        call: 1,
        act: Act::Fail(1),
    },
    Planned {
        call: 5,
        act: Act::Heal(1),
    },
];

// How many copies are made fresh so many turns after the write was submitted, and how many once all is done.
fn fresh_at_last<S: Shelf + Drop>(rt: &impl Abort, driver: Driver<S>, turns: u32) -> (u32, u32) {
    let mut driver = driver;
    check(rt, write(rt, &mut driver, 3, 9) == Ok(1), "taken");
    for _ in 0..turns {
        turn(rt, &mut driver);
    }
    let at_once = sync(rt, &mut driver).expect(rt, "none stays stale");
    check(rt, drain(rt, &mut driver) == Ok(()), "all is done");
    check(rt, is_stale(&driver, 1) == (at_once == 0), "if not counted");
    let at_last = sync(rt, &mut driver).expect(rt, "none stays stale");
    check(rt, driver.take(1, 1) == Taken::Done, "it is done");
    order(rt, &mut driver, Arrange::Fail(0));
    check(rt, got(rt, &mut driver, 3) == Ok(9), "it stands on it");
    close(rt, driver);
    (at_once, at_last)
}

// The staleness is committed by the eleventh turn: an admission, two starts, two ends, three starts and two ends.
#[test]
fn a_copy_is_judged_by_what_is_committed(rt: HostRuntime) {
    for turns in 0..14 {
        let made = fresh_at_last(&rt, begin(&rt, &FRESH, &ONCE), turns);
        let want = if turns < 10 { (0, 1) } else { (1, 0) };
        check(&rt, made == want, "not before it is stale");
    }
}

// ---- a transfer of which nothing is heard

fn sync_briefly<S: Shelf>(rt: &impl Abort, driver: &mut Driver<S>) -> Result<u32, SyncFault> {
    goes_on(rt, driver);
    let mut patience = Patience { left: 5 };
    sync_volume(driver, 1, &mut patience)
}

fn is_stuck<S: Shelf + Drop>(rt: &impl Abort, driver: Driver<S>) {
    let mut driver = driver;
    let stuck = Err(SyncFault::Stuck);
    check(rt, sync_briefly(rt, &mut driver) == stuck, "stuck");
    check(rt, sync(rt, &mut driver) == Err(SyncFault::Busy), "open");
    check(rt, drain(rt, &mut driver) == Ok(()), "all is done");
    check(rt, close_copy(&mut driver) == CopyState::Done, "brought up");
    check(rt, sync(rt, &mut driver) == Ok(0), "it is fresh");
    close(rt, driver);
}

#[test]
fn a_resync_has_patience(rt: HostRuntime) {
    let late = [Planned {
        call: 7,
        act: Act::Delay(20),
    }];
    let setup = Setup {
        mode: Mode::Off,
        ..STALE
    };
    is_stuck(&rt, begin(&rt, &setup, &late));
}
