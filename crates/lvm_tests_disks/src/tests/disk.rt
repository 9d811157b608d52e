//! A shelf in memory at work: what its calls answer, one after the other. Its starts and reaps go
//! through the trait.
use crate::tests::fixtures::{blank_shelf, check, plan_of, start};
use Answer::*;
use Step::*;
use lvm_disk::{Arrange, Reaped, Shelf, Started};
use lvm_memory::{Act, MemShelf, Planned, names_disks};
use lvm_num::Pbuf;
use std::process::Abort;

// What is asked of the shelf.
#[derive(Clone, Copy)]
enum Step {
    // A write of sectors, of one byte, which is its buffer's number too.
    Write(u16, u64, u32, u8),
    // A read of sectors, into a buffer of zeros.
    Read(u16, u64, u32),
    Reap,
    NextFreed,
    Order(Arrange),
    Replan(&'static [Planned]),
    // The last byte of a sector.
    ByteAt(u16, u64),
    Faults(u16),
    Flights,
    Calls,
}

#[derive(Clone, Copy, PartialEq, Eq)]
enum Answer {
    Ticket(u64),
    Empty,
    // The ticket, and the first byte of the buffer.
    Done(u64, u8),
    Failed(u64),
    // How many buffers are given back.
    Dark(u32),
    Is(u64),
    Taken,
    Nothing,
    // No call may be asked so.
    Refused,
}

type Script = (&'static str, &'static [Planned], &'static [(Step, Answer)]);

// On two disks of 16 sectors.
static SCRIPTS: [Script; 7] = [
    (
        "a write is read back",
        &[],
        &[
            (Write(1, 5, 2, 7), Ticket(0)),
            (ByteAt(1, 5), Is(0)),
            (Reap, Done(0, 7)),
            (Read(1, 6, 1), Ticket(0)),
            (Reap, Done(0, 7)),
            (ByteAt(1, 6), Is(7)),
            (ByteAt(0, 5), Is(0)),
            (Calls, Is(4)),
        ],
    ),
    // Three sectors are under way, of two writes with a read between them. The word 5 picks the first
    // and the third.
    (
        "a cut writes the sectors that its word picks",
        &[
            Planned {
                call: 4,
                act: Act::Cut(5),
            },
            Planned {
                call: 4,
                act: Act::Cut(2),
            },
        ],
        &[
            (Write(0, 1, 2, 7), Ticket(0)),
            (Read(0, 9, 4), Ticket(1)),
            (Write(1, 3, 1, 9), Ticket(2)),
            (Reap, Dark(3)),
            (ByteAt(0, 1), Is(7)),
            (ByteAt(0, 2), Is(0)),
            (ByteAt(1, 3), Is(9)),
            (Write(0, 1, 1, 6), Dark(1)),
            (NextFreed, Is(7)),
            (NextFreed, Is(0)),
            (NextFreed, Is(9)),
            (NextFreed, Nothing),
        ],
    ),
    (
        "a failed write leaves the sectors that were picked",
        &[
            Planned {
                call: 2,
                act: Act::Pick(2),
            },
            Planned {
                call: 2,
                act: Act::Fail(0),
            },
            Planned {
                call: 5,
                act: Act::Heal(0),
            },
        ],
        &[
            (Write(0, 4, 3, 7), Ticket(0)),
            (Reap, Failed(0)),
            (ByteAt(0, 5), Is(7)),
            (Faults(0), Is(1)),
            (Read(0, 5, 1), Ticket(0)),
            (Read(0, 5, 1), Ticket(1)),
            (Reap, Done(0, 7)),
            (Faults(0), Is(1)),
        ],
    ),
    (
        "a delayed transfer is passed over",
        &[Planned {
            call: 1,
            act: Act::Delay(2),
        }],
        &[
            (Write(0, 4, 1, 7), Ticket(0)),
            (Write(0, 4, 1, 8), Ticket(1)),
            (Reap, Done(1, 8)),
            (Reap, Empty),
            (Reap, Done(0, 7)),
            (ByteAt(0, 4), Is(7)),
        ],
    ),
    (
        "the least free ticket is used again",
        &[],
        &[
            (Write(0, 0, 1, 1), Ticket(0)),
            (Write(0, 1, 1, 2), Ticket(1)),
            (Reap, Done(0, 1)),
            (Write(0, 2, 1, 3), Ticket(0)),
            (Reap, Done(1, 2)),
        ],
    ),
    (
        "arrangements fail, heal and cut",
        &[],
        &[
            (Order(Arrange::Fail(1)), Taken),
            (Write(1, 0, 1, 1), Ticket(0)),
            (Reap, Failed(0)),
            (Order(Arrange::Heal(1)), Taken),
            (Write(1, 0, 1, 2), Ticket(0)),
            (Reap, Done(0, 2)),
            (Write(1, 1, 1, 3), Ticket(0)),
            (Order(Arrange::Cut(1)), Taken),
            (Flights, Is(0)),
            (ByteAt(1, 1), Is(3)),
        ],
    ),
    (
        "a plan may be replaced",
        &[Planned {
            call: 2,
            act: Act::Cut(0),
        }],
        &[
            (
                Replan(&[Planned {
                    call: 3,
                    act: Act::Cut(1),
                }]),
                Taken,
            ),
            (Write(0, 0, 1, 1), Ticket(0)),
            (Write(0, 1, 1, 2), Ticket(1)),
            (Reap, Dark(2)),
            (ByteAt(0, 0), Is(1)),
            (ByteAt(0, 1), Is(0)),
        ],
    ),
];

// A buffer of one byte, as a transfer's.
fn buffer(rt: &(impl Abort + AllocGlobal), byte: u8) -> Pbuf {
    let mut buf = Pbuf::fresh(rt.alloc(), u32::from(byte)).expect(rt, "memory");
    for k in 0..8 {
        buf.set_sector(k, &[byte; 512]);
    }
    buf
}

fn started<S: Shelf>(shelf: &mut S, write: bool, disk: u16, at: (u64, u32), buf: Pbuf) -> Answer {
    match start(shelf, write, disk, at, buf) {
        Some(Started::Ticket(ticket)) => Ticket(ticket),
        Some(Started::Dark(_)) => Dark(1),
        None => Refused,
    }
}

fn reap<S: Shelf>(shelf: &mut S) -> Answer {
    if shelf.flights() == 0 {
        return Refused;
    }
    match shelf.reap() {
        Reaped::Empty => Empty,
        Reaped::Done { ticket, buf } => Done(ticket, buf.sector(0)[0]),
        Reaped::Failed { ticket, .. } => Failed(ticket),
        Reaped::Dark { freed } => Dark(freed),
    }
}

fn next_freed<S: Shelf>(shelf: &mut S) -> Answer {
    match shelf.next_freed() {
        Some(buf) => Is(u64::from(buf.number())),
        None => Nothing,
    }
}

fn faults<S: Shelf>(shelf: &S, disk: u16) -> Answer {
    if disk >= shelf.disks() {
        return Refused;
    }
    Is(shelf.faults(disk))
}

fn arrange<S: Shelf>(shelf: &mut S, what: Arrange) -> Answer {
    match what {
        Arrange::Fail(disk) | Arrange::Heal(disk) if disk >= shelf.disks() => return Refused,
        _ => {}
    }
    if shelf.arrange(what) { Taken } else { Nothing }
}

fn replan(rt: &(impl Abort + AllocGlobal), shelf: &mut MemShelf, plan: &[Planned]) -> Answer {
    if !names_disks(plan, shelf.disks()) {
        return Refused;
    }
    shelf.set_plan(plan_of(rt, plan));
    Taken
}

fn byte_at(shelf: &MemShelf, disk: u16, sector: u64) -> Answer {
    if disk >= shelf.disks() || sector > 1000 {
        return Refused;
    }
    if sector >= shelf.sectors(disk) {
        return Nothing;
    }
    match shelf.sector(disk, sector).last() {
        Some(byte) => Is(u64::from(*byte)),
        None => Nothing,
    }
}

fn ask(rt: &(impl Abort + AllocGlobal), shelf: &mut MemShelf, step: Step) -> Answer {
    match step {
        Write(disk, first, count, byte) => started(
            shelf,
            true,
            disk,
            (first, count),
            buffer(rt, byte),
        ),
        Read(disk, first, count) => started(shelf, false, disk, (first, count), buffer(rt, 0)),
        Reap => reap(shelf),
        NextFreed => next_freed(shelf),
        Order(what) => arrange(shelf, what),
        Replan(plan) => replan(rt, shelf, plan),
        ByteAt(disk, sector) => byte_at(shelf, disk, sector),
        Faults(disk) => faults(shelf, disk),
        Flights => Is(u64::from(shelf.flights())),
        Calls => Is(shelf.calls()),
    }
}

fn see_steps(
    rt: &(impl Abort + AllocGlobal),
    shelf: &mut MemShelf,
    name: &str,
    steps: &[(Step, Answer)],
) {
    for (step, wanted) in steps {
        check(rt, ask(rt, shelf, *step) == *wanted, name);
    }
}

#[test]
fn a_shelf_in_memory_answers_by_its_plan(rt: HostRuntime) {
    for (name, plan, steps) in &SCRIPTS {
        see_steps(&rt, &mut blank_shelf(&rt, &[16, 16], plan), name, steps);
    }
}
