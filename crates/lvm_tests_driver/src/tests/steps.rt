//! Tests as rows of steps: what is done with a session, and what comes of it.
use crate::tests::fixtures::{
    answer, check, close, close_copy, drain, got, is_stale, open_copy, order, read, turn, write,
    written,
};
use lvm_core::CommitFault;
use lvm_disk::{Arrange, Shelf};
use lvm_ranges::below::driver::Driver;
use lvm_session::{AskFault, CopyFault, CopyState, Taken, Turned};
use std::process::Abort;

/// What is done with a session or looked up in it, and what comes of it. The requests are those of client 1.
#[derive(Clone, Copy)]
pub enum Step {
    /// A write of a block is submitted.
    Write(u64, u64, Result<u64, AskFault>),
    /// A read of a block is submitted.
    Read(u64, Result<u64, AskFault>),
    /// A write of a block is submitted, and lands.
    Written(u64, u64, Taken),
    /// A read of a block is submitted, and lands: the block's word, or how it failed.
    Got(u64, Result<u64, Taken>),
    /// The answer of a request is taken.
    Take(u64, Taken),
    /// The same by another client.
    TakeForAnother(u64, Taken),
    /// The answer of a read is taken: the block's word, or how it failed.
    Answer(u64, Result<u64, Taken>),
    /// Turns are made until nothing is left to be made.
    Drain(Result<(), CommitFault>),
    /// One turn is made.
    Turn(Turned),
    /// So many turns are made, after which so many transfers are out.
    Turns(u32, u32),
    /// Turns are made until none of the transfers that are out has ended: so many.
    UntilIdle(u32),
    /// Turns are made until the first write is done: so many transfers are out then.
    UntilFirst(u32),
    /// An order is given to the disks.
    Order(Arrange),
    /// A copy of a volume's logical partition is opened.
    Open(u16, u32, u8, Result<(), CopyFault>),
    /// The copy that is open has come so far.
    Copy(CopyState),
    /// It has ended so, and is closed.
    Close(CopyState),
    /// Whether the copy on a disk is stale.
    Stale(u16, bool),
    /// The votes that are left, and all.
    Votes(u32, u32),
}

/// Does one step, and ends the test where something else comes of it.
pub fn does<S: Shelf>(rt: &impl Abort, driver: &mut Driver<S>, name: &str, step: Step) {
    check(rt, comes(rt, driver, &step), name);
}

/// Does the steps, and ends the test at the first of which something else comes. Each has a name.
pub fn play<S: Shelf>(rt: &impl Abort, driver: &mut Driver<S>, steps: &[(&str, Step)]) {
    for (name, step) in steps {
        check(rt, comes(rt, driver, step), name);
    }
}

/// Does the steps, behind which each request was taken, and ends the session.
pub fn play_out<S: Shelf + Drop>(rt: &impl Abort, driver: Driver<S>, steps: &[(&str, Step)]) {
    let mut driver = driver;
    play(rt, &mut driver, steps);
    close(rt, driver);
}

/// Does the steps, behind which requests may be open, and ends the session.
pub fn break_off<S: Shelf + Drop>(rt: &impl Abort, driver: Driver<S>, steps: &[(&str, Step)]) {
    let mut driver = driver;
    play(rt, &mut driver, steps);
    driver.close();
}

fn comes<S: Shelf>(rt: &impl Abort, driver: &mut Driver<S>, step: &Step) -> bool {
    match step {
        Step::Write(at, word, answer) => write(rt, driver, *at, *word) == *answer,
        Step::Read(at, answer) => read(rt, driver, *at) == *answer,
        Step::Written(at, word, taken) => written(rt, driver, *at, *word) == *taken,
        Step::Got(at, word) => got(rt, driver, *at) == *word,
        Step::Take(id, taken) => driver.take(1, *id) == *taken,
        Step::TakeForAnother(id, taken) => driver.take(2, *id) == *taken,
        Step::Answer(id, word) => answer(rt, driver, *id) == *word,
        Step::Drain(ended) => drain(rt, driver) == *ended,
        _ => turns(rt, driver, step),
    }
}

fn turns<S: Shelf>(rt: &impl Abort, driver: &mut Driver<S>, step: &Step) -> bool {
    match step {
        Step::Turn(turned) => turn(rt, driver) == *turned,
        Step::Turns(turns, out) => out_after(rt, driver, *turns) == *out,
        Step::UntilIdle(out) => until_idle(rt, driver) == *out,
        Step::UntilFirst(out) => until_first(rt, driver) == *out,
        _ => shows(rt, driver, step),
    }
}

fn shows<S: Shelf>(rt: &impl Abort, driver: &mut Driver<S>, step: &Step) -> bool {
    match step {
        Step::Order(what) => {
            order(rt, driver, *what);
            true
        }
        Step::Open(lv, lp, number, opened) => open_copy(rt, driver, *lv, *lp, *number) == *opened,
        Step::Copy(state) => driver.copy_state() == *state,
        Step::Close(state) => close_copy(driver) == *state,
        Step::Stale(disk, stale) => is_stale(driver, *disk) == *stale,
        Step::Votes(have, total) => driver.votes() == (*have, *total),
        _ => false,
    }
}

// Turns until nothing may be made and none of the transfers that are out has ended: how many are out.
fn until_idle<S: Shelf>(rt: &impl Abort, driver: &mut Driver<S>) -> u32 {
    for _ in 0..2_000 {
        if turn(rt, driver) == Turned::Idle {
            return driver.flights();
        }
    }
    0
}

// Turns until the first write is taken: how many transfers are out then.
fn until_first<S: Shelf>(rt: &impl Abort, driver: &mut Driver<S>) -> u32 {
    for _ in 0..2_000 {
        turn(rt, driver);
        if driver.take(1, 1) == Taken::Done {
            return driver.flights();
        }
    }
    0
}

// How many transfers are out after so many turns.
fn out_after<S: Shelf>(rt: &impl Abort, driver: &mut Driver<S>, turns: u32) -> u32 {
    for _ in 0..turns {
        turn(rt, driver);
    }
    driver.flights()
}
