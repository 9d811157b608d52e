ghost use Rattle.lvm_hold.specs.Conflicts.{IsInGroup};

use crate::tests::fixtures::{check, check_at};
use lvm_hold::{Held, Queue};
use std::process::Abort;

fn read(at: u64, count: u32) -> Held {
    Held {
        lv: 1,
        at,
        count,
        write: false,
        copy: false,
    }
}

fn write(at: u64, count: u32) -> Held {
    Held {
        write: true,
        ..read(at, count)
    }
}

fn copy(at: u64) -> Held {
    Held {
        copy: true,
        ..read(at, 256)
    }
}

// What may enter.
fn valid(rt: &impl Abort, ask: Held) -> Held
    ensures { IsInGroup result }
{
    assert!(rt; ask.count >= 1 && u64::from(ask.count) <= u64::MAX - ask.at);
    assert!(rt; ask.at % 256 + u64::from(ask.count) <= 256);
    assert!(rt; !ask.copy || ask.count == 256);
    ask
}

// What one waits for, where it is inside.
fn wait_of(queue: &Queue, id: u64) -> Option<Option<u64>> {
    if queue.has(id) {
        Some(queue.blocked_by(id))
    } else {
        None
    }
}

// What the first and the second of two wait for.
fn waits(rt: &(impl Abort + AllocGlobal), first: Held, second: Held) -> [Option<Option<u64>>; 2] {
    let mut queue = Queue::new(rt.alloc(), 2).expect(rt, "memory");
    queue.enter(7, valid(rt, first));
    queue.enter(9, valid(rt, second));
    [wait_of(&queue, 7), wait_of(&queue, 9)]
}

// Whether the second of two waits for the first, or neither for the other.
fn is_met(rt: &(impl Abort + AllocGlobal), first: Held, second: Held, meet: bool) -> bool {
    waits(rt, first, second) == [Some(None), Some(meet.then_some(7))]
}

// What enters: a read or a write of so many blocks from one on, such a write of another volume, or the step of a copy.
#[derive(Clone, Copy)]
enum Ask {
    Read(u64, u32),
    Write(u64, u32),
    WriteElsewhere(u64, u32),
    Copy(u64),
}

fn held(ask: Ask) -> Held {
    match ask {
        Ask::Read(at, count) => read(at, count),
        Ask::Write(at, count) => write(at, count),
        Ask::WriteElsewhere(at, count) => Held {
            lv: 2,
            ..write(at, count)
        },
        Ask::Copy(at) => copy(at),
    }
}

const LAST: u64 = u64::MAX - 255;

// the first, the second, and whether it waits for the first
static PAIRS: [(Ask, Ask, bool); 16] = [
    (Ask::Write(10, 5), Ask::Write(15, 1), false),
    (Ask::Write(10, 5), Ask::Write(14, 1), true),
    (Ask::Write(10, 5), Ask::Read(9, 1), false),
    (Ask::Write(10, 5), Ask::Read(9, 2), true),
    (Ask::Read(10, 5), Ask::Write(0, 256), true),
    (Ask::Read(10, 5), Ask::Read(10, 5), false),
    (Ask::Write(10, 5), Ask::WriteElsewhere(10, 5), false),
    (Ask::Write(LAST, 255), Ask::Read(LAST + 254, 1), true),
    (Ask::Copy(256), Ask::Write(255, 1), false),
    (Ask::Copy(256), Ask::Write(256, 1), true),
    (Ask::Copy(256), Ask::Write(511, 1), true),
    (Ask::Copy(256), Ask::Write(512, 1), false),
    (Ask::Write(511, 1), Ask::Copy(256), true),
    (Ask::Copy(256), Ask::Read(300, 9), false),
    (Ask::Read(300, 9), Ask::Copy(256), false),
    (Ask::Copy(256), Ask::Copy(256), false),
];

#[test]
fn requests_meet_at_the_edges_of_a_range_and_of_a_track_group(rt: HostRuntime) {
    for (k, (first, second, meet)) in PAIRS.iter().enumerate() {
        let met = is_met(&rt, held(*first), held(*second), *meet);
        check_at(&rt, met, "pair", k);
    }
}

fn leave(rt: &impl Abort, queue: &mut Queue, id: u64) {
    assert!(rt; queue.has(id));
    queue.leave(id);
}

// What 3, 4, 8 and 9 wait for at first, without 3, and without 4 too.
static WAITS: [[Option<Option<u64>>; 4]; 3] = [
    [Some(None), Some(Some(3)), Some(Some(3)), Some(Some(4))],
    [None, Some(None), Some(Some(4)), Some(Some(4))],
    [None, None, Some(None), Some(Some(8))],
];

fn are_waits(queue: &Queue, want: &[Option<Option<u64>>; 4]) -> bool {
    wait_of(queue, 3) == want[0]
        && wait_of(queue, 4) == want[1]
        && wait_of(queue, 8) == want[2]
        && wait_of(queue, 9) == want[3]
}

#[test]
fn the_least_earlier_one_is_waited_for_until_it_leaves(rt: HostRuntime) {
    let mut queue = Queue::new(rt.alloc(), 4).expect(&rt, "memory");
    queue.enter(3, valid(&rt, read(8, 8)));
    queue.enter(4, valid(&rt, write(12, 8)));
    queue.enter(8, valid(&rt, write(15, 1)));
    queue.enter(9, valid(&rt, read(0, 20)));
    check(&rt, are_waits(&queue, &WAITS[0]), "all");
    leave(&rt, &mut queue, 3);
    check(&rt, are_waits(&queue, &WAITS[1]), "without 3");
    leave(&rt, &mut queue, 4);
    check(&rt, are_waits(&queue, &WAITS[2]), "without 4");
}
