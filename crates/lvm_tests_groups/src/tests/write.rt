//! Records and notes that are written to two disks in memory with just the room for records.
ghost use Rattle.std.specs.Prelude.{◌≡◌};
ghost use Rattle.lvm_num.specs.Record.{longest_content};

use crate::tests::disks::{all_disks, blank_shelf, has_room, plan_of};
use crate::tests::epochs::first_two;
use crate::tests::fixtures::check;
use crate::tests::members::first_homes;
use End::*;
use Step::*;
use lvm_disk::Shelf;
use lvm_memory::{Act, MemShelf, Planned, names_disks};
use lvm_num::{Kind, Pbuf, Stamp};
use lvm_rec::{Homes, read_note, read_slot};
use lvm_transfer::{Patience, relight};
use lvm_write::{Wrote, empty_notes, write_record};
use std::process::Abort;

const FIRST: Stamp = Stamp { epoch: 50, seq: 1 };

const LATER: Stamp = Stamp { epoch: 50, seq: 2 };

const LAST: Stamp = Stamp { epoch: 50, seq: 3 };

// The longest descriptor has 1,152 sectors, which are five pieces.
const LONG: usize = 571_388;

#[derive(Clone, Copy)]
enum Step {
    // A record of so many bytes, of which the last is told apart.
    Write(Kind, Stamp, usize, u8),
    Replan(&'static [Planned]),
}

// How a write to both disks ended.
#[derive(Clone, Copy, PartialEq, Eq)]
enum End {
    // On which of them it failed.
    Ended([bool; 2]),
    Dark,
    Stuck,
    // The plan was replaced.
    Replanned,
    // It came back with another buffer.
    OtherBuffer,
}

const WELL: End = Ended([false, false]);

// The stamp and the last byte of what a slot holds.
type Held = Option<(Stamp, u8)>;

const ONE: Held = Some((FIRST, 1));

const TWO: Held = Some((LATER, 2));

const THREE: Held = Some((LAST, 3));

// What is left after a step.
#[derive(Clone, Copy, PartialEq, Eq)]
struct Left {
    calls: u64,
    // The disks whose next descriptor, and whose next status, goes to slot 1.
    second: [[bool; 2]; 2],
    // The slots of the kind of the case, on the first disk and on the second.
    held: (Held, Held, Held, Held),
}

struct Case {
    name: &'static str,
    kind: Kind,
    plan: &'static [Planned],
    // The patience before all steps and after them.
    patience: u32,
    patience_left: u32,
    steps: &'static [(Step, End, Left)],
}

static CASES: [Case; 7] = [
    Case {
        name: "a record goes to both slots in turn",
        kind: Kind::Status,
        plan: &[],
        patience: 9,
        patience_left: 9,
        steps: &[
            (
                Write(Kind::Status, FIRST, 600, 1),
                WELL,
                Left {
                    calls: 4,
                    second: [[false, false], [true, true]],
                    held: (ONE, None, ONE, None),
                },
            ),
            (
                Write(Kind::Status, LATER, 600, 2),
                WELL,
                Left {
                    calls: 8,
                    second: [[false, false], [false, false]],
                    held: (ONE, TWO, ONE, TWO),
                },
            ),
            (
                Write(Kind::Status, LAST, 600, 3),
                WELL,
                Left {
                    calls: 12,
                    second: [[false, false], [true, true]],
                    held: (THREE, TWO, THREE, TWO),
                },
            ),
        ],
    },
    Case {
        name: "a status leaves the descriptors as they are",
        kind: Kind::Descriptor,
        plan: &[],
        patience: 9,
        patience_left: 9,
        steps: &[
            (
                Write(Kind::Descriptor, FIRST, 0, 1),
                WELL,
                Left {
                    calls: 4,
                    second: [[true, true], [false, false]],
                    held: (ONE, None, ONE, None),
                },
            ),
            (
                Write(Kind::Status, LATER, 0, 2),
                WELL,
                Left {
                    calls: 8,
                    second: [[true, true], [true, true]],
                    held: (ONE, None, ONE, None),
                },
            ),
        ],
    },
    Case {
        name: "a disk that fails is named and keeps its slot",
        kind: Kind::Descriptor,
        plan: &[Planned {
            call: 1,
            act: Act::Fail(0),
        }],
        patience: 9,
        patience_left: 9,
        steps: &[
            (
                Write(Kind::Descriptor, FIRST, 0, 1),
                Ended([true, false]),
                Left {
                    calls: 4,
                    second: [[false, true], [false, false]],
                    held: (None, None, ONE, None),
                },
            ),
            (
                Replan(&[Planned {
                    call: 5,
                    act: Act::Heal(0),
                }]),
                Replanned,
                Left {
                    calls: 4,
                    second: [[false, true], [false, false]],
                    held: (None, None, ONE, None),
                },
            ),
            (
                Write(Kind::Descriptor, LATER, 0, 2),
                WELL,
                Left {
                    calls: 8,
                    second: [[true, false], [false, false]],
                    held: (TWO, None, ONE, TWO),
                },
            ),
        ],
    },
    // A start and a reap for each of five pieces on each disk.
    Case {
        name: "a long record is written piece by piece",
        kind: Kind::Descriptor,
        plan: &[],
        patience: 9,
        patience_left: 9,
        steps: &[(
            Write(Kind::Descriptor, FIRST, LONG - 1, 1),
            WELL,
            Left {
                calls: 20,
                second: [[true, true], [false, false]],
                held: (ONE, None, ONE, None),
            },
        )],
    },
    Case {
        name: "after a piece that failed the rest of the disk is left out",
        kind: Kind::Descriptor,
        plan: &[Planned {
            call: 5,
            act: Act::Fail(0),
        }],
        patience: 9,
        patience_left: 9,
        steps: &[(
            Write(Kind::Descriptor, FIRST, LONG - 1, 1),
            Ended([true, false]),
            Left {
                calls: 16,
                second: [[false, true], [false, false]],
                held: (None, None, ONE, None),
            },
        )],
    },
    // The power is cut while the third piece of the second disk is out, of which every other sector lands.
    Case {
        name: "a cut in the middle leaves the record before",
        kind: Kind::Descriptor,
        plan: &[Planned {
            call: 36,
            act: Act::Cut(0xaaaa_aaaa_aaaa_aaaa),
        }],
        patience: 9,
        patience_left: 9,
        steps: &[
            (
                Write(Kind::Descriptor, FIRST, LONG - 1, 1),
                WELL,
                Left {
                    calls: 20,
                    second: [[true, true], [false, false]],
                    held: (ONE, None, ONE, None),
                },
            ),
            (
                Write(Kind::Descriptor, LATER, LONG - 1, 2),
                Dark,
                Left {
                    calls: 36,
                    second: [[false, true], [false, false]],
                    held: (ONE, TWO, ONE, None),
                },
            ),
            (
                Write(Kind::Descriptor, LATER, LONG - 1, 2),
                WELL,
                Left {
                    calls: 56,
                    second: [[true, false], [false, false]],
                    held: (TWO, TWO, ONE, TWO),
                },
            ),
        ],
    },
    Case {
        name: "nothing is heard until the patience has run out",
        kind: Kind::Status,
        plan: &[
            Planned {
                call: 1,
                act: Act::Delay(2),
            },
            Planned {
                call: 5,
                act: Act::Delay(1000),
            },
        ],
        patience: 5,
        patience_left: 0,
        steps: &[(
            Write(Kind::Status, FIRST, 0, 1),
            Stuck,
            Left {
                calls: 8,
                second: [[false, false], [true, false]],
                held: (ONE, None, None, None),
            },
        )],
    },
];

// So many sevens, and one byte that is told apart.
fn content_of(rt: &(impl Abort + AllocGlobal), len: usize, last: u8) -> Vec<u8> {
    let mut bytes = Vec::new(rt.alloc());
    bytes.resize(len.min(LONG), 7).expect(rt, "memory");
    bytes.push(last).expect(rt, "memory");
    bytes
}

fn longest(kind: Kind) -> usize
    ensures { result ≡ longest_content kind }
{
    match kind {
        Kind::Descriptor => 571_388,
        Kind::Status => 31_740,
    }
}

fn end_of(wrote: Wrote) -> End {
    match wrote {
        Wrote::Ended { failed, buf } => {
            if buf.number() == 9 {
                Ended(first_two(failed))
            } else {
                OtherBuffer
            }
        }
        Wrote::Dark => Dark,
        Wrote::Stuck => Stuck,
    }
}

fn write<S: Shelf>(
    rt: &(impl Abort + AllocGlobal),
    shelf: &mut S,
    record: (Kind, Stamp, &[u8]),
    homes: &mut Homes,
    patience: &mut Patience,
) -> End {
    let (kind, stamp, content) = record;
    assert!(rt; shelf.flights() == 0);
    relight(shelf);
    assert!(rt; has_room(shelf));
    assert!(rt; stamp.epoch != 0 && stamp.seq != 0 && content.len() <= longest(kind));
    let targets = all_disks(shelf.disks());
    let buf = Pbuf::fresh(rt.alloc(), 9).expect(rt, "memory");
    end_of(write_record(shelf, kind, stamp, content, targets, homes, buf, patience))
}

fn replan(rt: &(impl Abort + AllocGlobal), shelf: &mut MemShelf, plan: &[Planned]) -> End {
    assert!(rt; names_disks(plan, shelf.disks()));
    shelf.set_plan(plan_of(rt.alloc(), plan).expect(rt, "memory"));
    Replanned
}

fn take(
    rt: &(impl Abort + AllocGlobal),
    shelf: &mut MemShelf,
    step: Step,
    homes: &mut Homes,
    patience: &mut Patience,
) -> End {
    match step {
        Write(kind, stamp, len, last) => {
            let content = content_of(rt, len, last);
            write(
                rt,
                shelf,
                (kind, stamp, content.as_slice()),
                homes,
                patience,
            )
        }
        Replan(plan) => replan(rt, shelf, plan),
    }
}

// What a slot of a disk holds.
fn held(
    rt: &(impl Abort + AllocGlobal),
    shelf: &MemShelf,
    disk: u16,
    kind: Kind,
    second: bool,
) -> Held {
    let (first, end) = match (kind, second) {
        (Kind::Descriptor, false) => (512, 1664),
        (Kind::Descriptor, true) => (1664, 2816),
        (Kind::Status, false) => (64, 128),
        (Kind::Status, true) => (128, 192),
    };
    assert!(rt; disk < shelf.disks());
    let image = shelf.image(rt.alloc(), disk).expect(rt, "memory");
    let slot = image.get(first * 512..end * 512)?;
    let framed = read_slot(rt.alloc(), kind, slot).expect(rt, "memory")?;
    let last = framed.content.as_slice().last()?;
    Some((framed.stamp, *last))
}

fn all_held(
    rt: &(impl Abort + AllocGlobal),
    shelf: &MemShelf,
    kind: Kind,
) -> (Held, Held, Held, Held) {
    (
        held(rt, shelf, 0, kind, false),
        held(rt, shelf, 0, kind, true),
        held(rt, shelf, 1, kind, false),
        held(rt, shelf, 1, kind, true),
    )
}

fn look(rt: &(impl Abort + AllocGlobal), shelf: &MemShelf, homes: &Homes, kind: Kind) -> Left {
    Left {
        calls: shelf.calls(),
        second: [first_two(homes.descriptor), first_two(homes.status)],
        held: all_held(rt, shelf, kind),
    }
}

fn see_steps(rt: &(impl Abort + AllocGlobal), case: &Case, shelf: &mut MemShelf) {
    let mut homes = first_homes();
    let mut patience = Patience {
        left: case.patience,
    };
    for (step, end, wanted) in case.steps {
        let ended = take(rt, shelf, *step, &mut homes, &mut patience);
        let is = look(rt, shelf, &homes, case.kind);
        check(rt, ended == *end && is == *wanted, case.name);
    }
    check(rt, patience.left == case.patience_left, case.name);
}

#[test]
fn records_are_written(rt: HostRuntime) {
    for case in &CASES {
        let mut shelf = blank_shelf(rt.alloc(), &[4096, 4096], case.plan, 8).expect(&rt, "disks");
        see_steps(&rt, case, &mut shelf);
    }
}

// A plan, how the notes of both disks are emptied, and the stamps of the notes, which have no entries then.
static NOTES: [(&str, &[Planned], End, [Option<u64>; 2]); 4] = [
    ("both notes are emptied", &[], WELL, [Some(50), Some(50)]),
    (
        "a note that failed is named and the other is written",
        &[Planned {
            call: 1,
            act: Act::Fail(0),
        }],
        Ended([true, false]),
        [Some(0), Some(50)],
    ),
    (
        "a cut between two notes leaves the first",
        &[Planned {
            call: 4,
            act: Act::Cut(0),
        }],
        Dark,
        [Some(50), Some(0)],
    ),
    (
        "a cut may leave the second too",
        &[Planned {
            call: 4,
            act: Act::Cut(1),
        }],
        Dark,
        [Some(50), Some(50)],
    ),
];

fn empty<S: Shelf>(rt: &(impl Abort + AllocGlobal), shelf: &mut S, stamp: u64) -> End {
    assert!(rt; shelf.flights() == 0);
    relight(shelf);
    assert!(rt; has_room(shelf));
    let targets = all_disks(shelf.disks());
    let buf = Pbuf::fresh(rt.alloc(), 9).expect(rt, "memory");
    end_of(empty_notes(shelf, stamp, targets, buf, &mut Patience::whole()))
}

// The stamp of a disk's note, where it has no entries.
fn note_on(rt: &impl Abort, shelf: &MemShelf, disk: u16) -> Option<u64> {
    assert!(rt; disk < shelf.disks());
    assert!(rt; shelf.sectors(disk) > 8);
    let note = read_note(shelf.sector(disk, 8))?;
    if note.entries.is_empty() {
        Some(note.stamp)
    } else {
        None
    }
}

#[test]
fn notes_are_emptied(rt: HostRuntime) {
    for (name, plan, end, stamps) in &NOTES {
        let mut shelf = blank_shelf(rt.alloc(), &[4096, 4096], plan, 8).expect(&rt, "disks");
        let ended = empty(&rt, &mut shelf, 50);
        let notes = [note_on(&rt, &shelf, 0), note_on(&rt, &shelf, 1)];
        let is = ended == *end && notes == *stamps && shelf.calls() == 4;
        check(&rt, is, name);
    }
}
