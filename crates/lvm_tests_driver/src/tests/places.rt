//! A move that ends while a write goes to its partition, to which the copy of another volume moves next.
use crate::tests::fixtures::{
    FRESH, POLICIES, Setup, begin, check, close, close_copy, drain, got, got_of, order, turn,
    write, write_to,
};
use crate::tests::moves::{FREE, commit, open_move};
use lvm_disk::{Arrange, Shelf};
use lvm_memory::{Act, Planned};
use lvm_ranges::below::driver::Driver;
use lvm_session::{CopyState, OpenFault, Taken};
use std::process::Abort;

// Two volumes of one copy each, on the first disk and on the second one.
const TWO: Setup = Setup {
    copies: 1,
    another: true,
    ..FRESH
};

fn turns<S: Shelf>(rt: &impl Abort, driver: &mut Driver<S>, most: u32) {
    for _ in 0..most {
        turn(rt, driver);
    }
}

// The first track group is copied.
fn has_passed(state: CopyState) -> bool {
    match state {
        CopyState::Running { cursor } => 0 < cursor,
        _ => false,
    }
}

// Turns until that is so.
fn pass_first<S: Shelf>(rt: &impl Abort, driver: &mut Driver<S>) {
    for _ in 0..200 {
        if !has_passed(driver.copy_state()) {
            turn(rt, driver);
        }
    }
    let passed = has_passed(driver.copy_state());
    check(rt, passed, "it has passed it");
}

// A block of the second volume is written. The first volume's copy begins to move, and once its first track group has
// passed, a block of that is written: it goes to the old partition and to the new one.
fn write_both<S: Shelf>(rt: &(impl Abort + AllocGlobal), driver: &mut Driver<S>) {
    check(rt, write_to(rt, driver, 2, 0, 5) == Ok(1), "taken");
    check(rt, drain(rt, driver) == Ok(()), "all is done");
    check(rt, driver.take(1, 1) == Taken::Done, "written");
    let opened = open_move(rt, driver, 1, 0, 1, FREE);
    check(rt, opened == Ok(()), "opened");
    pass_first(rt, driver);
    check(rt, write(rt, driver, 0, 10) == Ok(2), "taken too");
}

// Turns until the move may be closed, and how it has ended.
fn end_move<S: Shelf>(rt: &impl Abort, driver: &mut Driver<S>) -> CopyState {
    for _ in 0..2_000 {
        let how = close_copy(driver);
        if !matches!(how, CopyState::Running { .. }) {
            return how;
        }
        turn(rt, driver);
    }
    driver.copy_state()
}

// The second volume's copy moves to the same partition, unless its disk is missing: whether it has.
fn move_next<S: Shelf>(rt: &(impl Abort + AllocGlobal), driver: &mut Driver<S>) -> bool {
    match open_move(rt, driver, 2, 0, 1, FREE) {
        Ok(()) => {
            check(rt, commit(rt, driver, 1_000) == Ok(()), "committed");
            true
        }
        Err(why) => {
            check(rt, why == OpenFault::Missing { disk: 2 }, "missing");
            false
        }
    }
}

// The partition's disk fails so many turns behind the write, and is healed after so many more. The move is closed as
// soon as it may be. Each volume has its own word at last: whether the move had failed, and the other one was made.
fn each_has_its_own<S: Shelf + Drop>(
    rt: &(impl Abort + AllocGlobal),
    driver: Driver<S>,
    before: u32,
    between: u32,
) -> bool {
    let mut driver = driver;
    write_both(rt, &mut driver);
    turns(rt, &mut driver, before);
    order(rt, &mut driver, Arrange::Fail(2));
    turns(rt, &mut driver, between);
    order(rt, &mut driver, Arrange::Heal(2));
    let how = end_move(rt, &mut driver);
    let moved = move_next(rt, &mut driver);
    check(rt, drain(rt, &mut driver) == Ok(()), "nothing stands still");
    check(rt, driver.take(1, 2) == Taken::Done, "it is done");
    check(rt, got(rt, &mut driver, 0) == Ok(10), "of the first");
    check(rt, got_of(rt, &mut driver, 2, 0) == Ok(5), "of the second");
    close(rt, driver);
    moved && how == CopyState::SyncFailed { disk: 2 }
}

// For how many turns the disk fails.
static FAILING: [u32; 3] = [1, 3, 6];

// The transfer that starts at this call is late, so that it lands behind the end of the move.
fn late_at(rt: &(impl Abort + AllocGlobal), setup: &Setup, call: u64) -> u32 {
    let late = [Planned {
        call,
        act: Act::Delay(40),
    }];
    let mut both = 0_u32;
    for before in 0..5 {
        for between in &FAILING {
            let driver = begin(rt, setup, &late);
            if each_has_its_own(rt, driver, before, *between) {
                both = both.saturating_add(1);
            }
        }
    }
    both
}

#[test]
fn a_late_write_lands_on_no_other_volume(rt: HostRuntime) {
    for policy in &POLICIES {
        let setup = Setup {
            policy: *policy,
            ..TWO
        };
        let mut both = 0_u32;
        for call in 5..21 {
            both = both.saturating_add(late_at(&rt, &setup, call));
        }
        check(&rt, both > 0, "some move had failed");
    }
}
