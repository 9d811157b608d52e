ghost use Rattle.std.specs.Prelude.{◌≤◌};
ghost use Rattle.lvm_vol.specs.Log.{spare_entries};

use crate::tests::fixtures::check;
use lvm_history::History;
use lvm_num::Mode;
use lvm_vol::{Entry, Outcome, Vol};
use std::process::Abort;

// What is entered, about block 5 of a volume; ids count the requests from 1.
#[derive(Clone, Copy)]
enum Step {
    Make(u16, Mode),
    Remove(u16),
    Split { from: u16, lv: u16 },
    Write(u16, u8),
    Read(u16),
    Land(u64, Outcome, bool),
    Got(u64, u8),
    Take(u64),
    On(u64),
    Cut,
}

fn room(rt: &impl Abort, history: &History, entries: u32)
    ensures { entries ≤ spare_entries history.now }
{
    assert!(rt; history.spare_entries() >= entries);
}

fn make(rt: &impl Abort, history: &mut History, lv: u16, mode: Mode) {
    room(rt, history, 1);
    history.push(Entry::Making {
        lv,
        blocks: 8,
        mode,
    });
}

fn remove(rt: &impl Abort, history: &mut History, lv: u16) {
    room(rt, history, 1);
    history.push(Entry::Removed { vol: Vol::Lv(lv) });
}

fn split(rt: &impl Abort, history: &mut History, from: u16, lv: u16) {
    room(rt, history, 1);
    history.push(Entry::Split { from, lv });
}

fn vary_on(rt: &impl Abort, history: &mut History, moment: u64) {
    room(rt, history, 1);
    history.push(Entry::On { moment });
}

fn write(rt: &impl Abort, history: &mut History, lv: u16, byte: u8) {
    room(rt, history, 3);
    assert!(rt; history.spare_bytes() >= 512);
    let _id = history.begin(7, Vol::Lv(lv), 5, 1, Some([byte; 512].as_slice()));
}

fn read(rt: &impl Abort, history: &mut History, lv: u16) {
    room(rt, history, 3);
    assert!(rt; history.spare_bytes() >= 512);
    let _id = history.begin(7, Vol::Lv(lv), 5, 1, None);
}

fn land(rt: &impl Abort, history: &mut History, id: u64, outcome: Outcome, started: bool) {
    assert!(rt; history.is_open(id));
    history.land(id, outcome, started);
}

fn got(rt: &impl Abort, history: &mut History, id: u64, byte: u8) {
    assert!(rt; history.awaited(id) == Some(1));
    history.land_read(id, [byte; 512].as_slice());
}

fn take(rt: &impl Abort, history: &mut History, id: u64) {
    assert!(rt; history.is_answered(7, id));
    history.taken(7, id);
}

fn enter(rt: &impl Abort, history: &mut History, step: Step) {
    match step {
        Step::Make(lv, mode) => make(rt, history, lv, mode),
        Step::Remove(lv) => remove(rt, history, lv),
        Step::Split { from, lv } => split(rt, history, from, lv),
        Step::Write(lv, byte) => write(rt, history, lv, byte),
        Step::Read(lv) => read(rt, history, lv),
        Step::Land(id, outcome, started) => land(rt, history, id, outcome, started),
        Step::Got(id, byte) => got(rt, history, id, byte),
        Step::Take(id) => take(rt, history, id),
        Step::On(moment) => vary_on(rt, history, moment),
        Step::Cut => history.cut(),
    }
}

fn told(rt: &(impl Abort + AllocGlobal), steps: &[Step]) -> History {
    let mut history = History::new(rt.alloc(), 50, 100, 65_536).expect(rt, "memory");
    for step in steps {
        enter(rt, &mut history, *step);
    }
    history
}

// Of the bytes 0 to 3, those of which block 5 may be full.
fn allowed(history: &History, lv: u16) -> [bool; 4] {
    [
        history.may_of(Vol::Lv(lv), 5, &[0; 512]),
        history.may_of(Vol::Lv(lv), 5, &[1; 512]),
        history.may_of(Vol::Lv(lv), 5, &[2; 512]),
        history.may_of(Vol::Lv(lv), 5, &[3; 512]),
    ]
}

const ALL: [bool; 4] = [true, true, true, true];

const ONLY_0: [bool; 4] = [true, false, false, false];

const ONLY_1: [bool; 4] = [false, true, false, false];

const ONLY_2: [bool; 4] = [false, false, true, false];

const BOTH_0_1: [bool; 4] = [true, true, false, false];

const BOTH_1_2: [bool; 4] = [false, true, true, false];

const THREE_0_1_2: [bool; 4] = [true, true, true, false];

const ACTIVE: Step = Step::Make(1, Mode::Active);

const PASSIVE: Step = Step::Make(1, Mode::Passive);

const OFF: Step = Step::Make(1, Mode::Off);

const WRITE_1: Step = Step::Write(1, 1);

const WRITE_2: Step = Step::Write(1, 2);

const READ: Step = Step::Read(1);

fn done(id: u64) -> Step {
    Step::Land(id, Outcome::Done, true)
}

fn lost(id: u64) -> Step {
    Step::Land(id, Outcome::Lost, true)
}

fn off(id: u64, started: bool) -> Step {
    Step::Land(id, Outcome::Off, started)
}

fn dark(id: u64, started: bool) -> Step {
    Step::Land(id, Outcome::Dark, started)
}

fn check_all(rt: &(impl Abort + AllocGlobal), cases: &[(&str, &[Step], u16, [bool; 4])]) {
    for (what, steps, lv, want) in cases {
        let history = told(rt, steps);
        check(rt, allowed(&history, *lv) == *want, what);
    }
}

#[test]
fn writes_and_reads_leave_what_the_table_says(rt: HostRuntime) {
    check_all(
        &rt,
        &[
            ("nothing is known", &[], 1, ALL),
            ("made of zeros", &[ACTIVE], 1, ONLY_0),
            ("an open write", &[ACTIVE, WRITE_1], 1, ONLY_0),
            (
                "a write that is done",
                &[ACTIVE, WRITE_1, done(1)],
                1,
                ONLY_1,
            ),
            ("a lost write", &[ACTIVE, WRITE_1, lost(1)], 1, BOTH_0_1),
            (
                "a lost write, read",
                &[ACTIVE, WRITE_1, lost(1), READ, Step::Got(2, 1)],
                1,
                ONLY_1,
            ),
            (
                "a lost write, written over",
                &[ACTIVE, WRITE_1, lost(1), WRITE_2, done(2)],
                1,
                ONLY_2,
            ),
            (
                "a lost write of an unknown block",
                &[WRITE_1, lost(1)],
                1,
                ALL,
            ),
            (
                "an unknown block, read",
                &[READ, Step::Got(1, 2)],
                1,
                ONLY_2,
            ),
            (
                "a read that failed",
                &[ACTIVE, READ, Step::Land(1, Outcome::ReadFailed, true)],
                1,
                ONLY_0,
            ),
            (
                "a write without a fresh copy",
                &[
                    ACTIVE,
                    WRITE_1,
                    Step::Land(1, Outcome::NoFresh, false),
                    Step::Cut,
                ],
                1,
                ONLY_0,
            ),
            (
                "two open writes, the first done",
                &[ACTIVE, WRITE_1, WRITE_2, done(1)],
                1,
                ONLY_1,
            ),
            (
                "the second one done, the first lost",
                &[ACTIVE, WRITE_1, WRITE_2, done(2), lost(1)],
                1,
                BOTH_1_2,
            ),
        ],
    );
}

#[test]
fn cuts_add_what_was_open(rt: HostRuntime) {
    check_all(
        &rt,
        &[
            (
                "two open writes, cut",
                &[ACTIVE, WRITE_1, WRITE_2, Step::Cut],
                1,
                THREE_0_1_2,
            ),
            (
                "one of two done, cut",
                &[ACTIVE, WRITE_1, WRITE_2, done(1), Step::Cut],
                1,
                BOTH_1_2,
            ),
            (
                "landed after the cut",
                &[ACTIVE, WRITE_1, Step::Cut, done(1)],
                1,
                BOTH_0_1,
            ),
            (
                "landed after the cut and a write",
                &[ACTIVE, WRITE_1, Step::Cut, WRITE_2, done(2), lost(1)],
                1,
                ONLY_2,
            ),
            (
                "cut, then read",
                &[ACTIVE, WRITE_1, Step::Cut, READ, Step::Got(2, 1)],
                1,
                ONLY_1,
            ),
            (
                "cut with mode off, then read",
                &[OFF, WRITE_1, Step::Cut, READ, Step::Got(2, 1)],
                1,
                BOTH_0_1,
            ),
            (
                "cut with mode off, nothing open, then read",
                &[OFF, WRITE_1, lost(1), Step::Cut, READ, Step::Got(2, 1)],
                1,
                ONLY_1,
            ),
        ],
    );
}

#[test]
fn what_went_off_is_loose_in_mode_off_alone(rt: HostRuntime) {
    check_all(
        &rt,
        &[
            ("not started", &[OFF, WRITE_1, off(1, false)], 1, ONLY_0),
            (
                "not started, then read",
                &[OFF, WRITE_1, off(1, false), READ, Step::Got(2, 0)],
                1,
                ONLY_0,
            ),
            (
                "active, started",
                &[ACTIVE, WRITE_1, off(1, true)],
                1,
                BOTH_0_1,
            ),
            (
                "active, started, then read",
                &[ACTIVE, WRITE_1, off(1, true), READ, Step::Got(2, 1)],
                1,
                ONLY_1,
            ),
            (
                "passive, started, then read",
                &[PASSIVE, WRITE_1, off(1, true), READ, Step::Got(2, 1)],
                1,
                ONLY_1,
            ),
            (
                "off, started, then read",
                &[OFF, WRITE_1, off(1, true), READ, Step::Got(2, 1)],
                1,
                BOTH_0_1,
            ),
            (
                "off, dark, started, then read",
                &[OFF, WRITE_1, dark(1, true), READ, Step::Got(2, 1)],
                1,
                BOTH_0_1,
            ),
            (
                "off, dark, not started",
                &[OFF, WRITE_1, dark(1, false)],
                1,
                ONLY_0,
            ),
            (
                "off, started, written over",
                &[OFF, WRITE_1, off(1, true), WRITE_2, done(2)],
                1,
                ONLY_2,
            ),
            (
                "written over, lost, then read",
                &[
                    OFF,
                    WRITE_1,
                    off(1, true),
                    WRITE_2,
                    done(2),
                    WRITE_1,
                    lost(3),
                    READ,
                    Step::Got(4, 1),
                ],
                1,
                ONLY_1,
            ),
        ],
    );
}

#[test]
fn volumes_come_and_go_with_their_blocks(rt: HostRuntime) {
    let split = Step::Split { from: 1, lv: 2 };
    check_all(
        &rt,
        &[
            (
                "removed",
                &[ACTIVE, WRITE_1, done(1), Step::Remove(1)],
                1,
                ALL,
            ),
            (
                "removed and made again",
                &[ACTIVE, WRITE_1, done(1), Step::Remove(1), ACTIVE],
                1,
                ONLY_0,
            ),
            (
                "made again over an open write",
                &[ACTIVE, WRITE_1, ACTIVE, Step::Cut],
                1,
                ONLY_0,
            ),
            ("split", &[ACTIVE, WRITE_1, lost(1), split], 2, BOTH_0_1),
            (
                "split, the first written",
                &[ACTIVE, WRITE_1, lost(1), split, WRITE_2, done(2)],
                2,
                BOTH_0_1,
            ),
            (
                "split, the second written",
                &[ACTIVE, WRITE_1, done(1), split, Step::Write(2, 2), done(2)],
                1,
                ONLY_1,
            ),
            (
                "split under an open write, cut",
                &[ACTIVE, WRITE_1, split, Step::Cut],
                2,
                ONLY_0,
            ),
            (
                "split under an open write, cut, the first",
                &[ACTIVE, WRITE_1, split, Step::Cut],
                1,
                BOTH_0_1,
            ),
            (
                "split while loose, then read",
                &[
                    OFF,
                    WRITE_1,
                    off(1, true),
                    split,
                    Step::Read(2),
                    Step::Got(2, 1),
                ],
                2,
                BOTH_0_1,
            ),
            (
                "split twice",
                &[
                    ACTIVE,
                    WRITE_1,
                    done(1),
                    split,
                    Step::Split { from: 2, lv: 3 },
                ],
                3,
                ONLY_1,
            ),
            (
                "split and back",
                &[
                    ACTIVE,
                    WRITE_1,
                    done(1),
                    split,
                    WRITE_2,
                    done(2),
                    Step::Split { from: 2, lv: 1 },
                ],
                1,
                ONLY_1,
            ),
            (
                "split over a volume",
                &[
                    Step::Make(2, Mode::Off),
                    Step::Write(2, 2),
                    done(1),
                    ACTIVE,
                    split,
                ],
                2,
                ONLY_0,
            ),
        ],
    );
}

#[test]
fn wrong_histories_are_not_legal(rt: HostRuntime) {
    let lands = |outcome: Outcome, started: bool| Step::Land(1, outcome, started);
    let cases: [(&str, &[Step], bool); 14] = [
        ("nothing", &[], true),
        (
            "a write and a read of it",
            &[
                ACTIVE,
                WRITE_1,
                done(1),
                Step::Take(1),
                READ,
                Step::Got(2, 1),
                Step::Take(2),
            ],
            true,
        ),
        (
            "an old value, read after the write is done",
            &[ACTIVE, WRITE_1, done(1), READ, Step::Got(2, 0)],
            false,
        ),
        (
            "a value that was never there",
            &[ACTIVE, WRITE_1, READ, Step::Got(2, 1)],
            false,
        ),
        (
            "a value of an unknown block",
            &[WRITE_1, READ, Step::Got(2, 1)],
            true,
        ),
        (
            "a read that is done",
            &[READ, lands(Outcome::Done, true)],
            false,
        ),
        (
            "a read that is lost",
            &[READ, lands(Outcome::Lost, true)],
            false,
        ),
        (
            "a write that got",
            &[WRITE_1, lands(Outcome::Got, true)],
            false,
        ),
        (
            "a write that failed as a read",
            &[WRITE_1, lands(Outcome::ReadFailed, true)],
            false,
        ),
        (
            "started without a fresh copy",
            &[WRITE_1, lands(Outcome::NoFresh, true)],
            false,
        ),
        (
            "not started without a fresh copy",
            &[WRITE_1, lands(Outcome::NoFresh, false)],
            true,
        ),
        (
            "a moment again",
            &[Step::On(60), Step::Cut, Step::On(60)],
            false,
        ),
        ("a moment that falls", &[Step::On(60), Step::On(59)], false),
        ("moments that rise", &[Step::On(60), Step::On(61)], true),
    ];
    for (what, steps, want) in cases {
        check(&rt, told(&rt, steps).is_legal() == want, what);
    }
}

// The run, the entries, the room that is left for more of them and for bytes.
fn counts(history: &History) -> (u64, u32, u32, u64) {
    (
        history.run(),
        history.len(),
        history.spare_entries(),
        history.spare_bytes(),
    )
}

fn entry(history: &History, k: u32) -> Option<Entry> {
    if k < history.len() {
        Some(history.entry(k))
    } else {
        None
    }
}

// The first and the last byte of each of the first two blocks.
fn ends(history: &History) -> Option<[u8; 4]> {
    if history.block_count() == 2 {
        let (one, two) = (history.block(0), history.block(1));
        Some([one[0], one[511], two[0], two[511]])
    } else {
        None
    }
}

// A request of client 7 for block 5 of volume 1.
fn begun(id: u64, write: bool, place: u64) -> Option<Entry> {
    Some(Entry::Begun {
        client: 7,
        id,
        vol: Vol::Lv(1),
        at: 5,
        count: 1,
        write,
        place,
    })
}

#[test]
fn tells_what_was_entered(rt: HostRuntime) {
    let history = told(&rt, &[ACTIVE, WRITE_1, READ, done(1), Step::Got(2, 2)]);
    check(
        &rt,
        counts(&history) == (50, 5, 100 - 5 - 2 - 1, 65_536 - 1_024),
        "counts",
    );
    let entries = [entry(&history, 1), entry(&history, 2)];
    check(
        &rt,
        entries == [begun(1, true, 0), begun(2, false, 1)],
        "entries",
    );
    check(&rt, ends(&history) == Some([1, 1, 2, 2]), "blocks");
}

#[test]
fn an_answer_is_there_for_its_client_until_it_is_taken(rt: HostRuntime) {
    let mut history = told(&rt, &[ACTIVE, WRITE_1, READ, done(1), Step::Got(2, 1)]);
    let answered = [history.is_answered(8, 2), history.is_answered(7, 2)];
    check(&rt, answered == [false, true], "answered");
    enter(&rt, &mut history, Step::Take(2));
    check(&rt, !history.is_answered(7, 2), "taken");
}

#[test]
fn a_cut_is_entered_once(rt: HostRuntime) {
    let mut history = told(&rt, &[ACTIVE, WRITE_1, done(1), Step::Cut]);
    check(&rt, history.len() == 4, "entries");
    history.cut();
    check(&rt, history.len() == 4, "entries");
}

#[test]
fn room_for_four_entries_serves_one_request(rt: HostRuntime) {
    let mut history = History::new(rt.alloc(), 50, 4, 512).expect(&rt, "memory");
    check(&rt, counts(&history) == (50, 0, 3, 512), "counts");
    enter(&rt, &mut history, WRITE_1);
    check(&rt, counts(&history) == (50, 1, 0, 0), "counts");
    enter(&rt, &mut history, done(1));
    enter(&rt, &mut history, Step::Take(1));
    history.cut();
    check(&rt, counts(&history) == (50, 4, 0, 0), "counts");
}
