//! A descriptor and then a status, committed by a session of three members in memory.
ghost use Rattle.std.specs.Prelude.{◌≡◌, ◌≤◌, ◌<◌, Ok, length, All, IsTrue};
ghost use Rattle.lvm_num.specs.declared.descriptor.PvRow.{PvRow as pv_row};
ghost use Rattle.lvm_num.specs.DescriptorBytes.{descriptor_of};
ghost use Rattle.lvm_commit.specs.Settling.{IsOf, MaySettle, HasNumbers};

use crate::tests::disks::{blank_shelf, has_room};
use crate::tests::fixtures::check;
use crate::tests::members::{first_homes, group, stamp, status, volume};
use lvm_commit::{CommitEnd, commit_descriptor, commit_status};
use lvm_disk::Shelf;
use lvm_memory::{Act, MemShelf, Planned};
use lvm_num::{Descriptor, Mode, Pbuf, Pp, Rows, Stamp};
use lvm_rec::Homes;
use lvm_status::{Change, StaleTable, Updater};
use lvm_transfer::{Patience, relight};
use std::process::Abort;

const ID: u64 = 50;

// Three disks with room for one partition.
const SIZES: [u64; 3] = [6144, 6144, 6144];

const ZEROTH: Pp = Pp { disk: 0, pp: 0 };

const FIRST: Pp = Pp { disk: 1, pp: 0 };

const SECOND: Pp = Pp { disk: 2, pp: 0 };

// How a commit ended.
#[derive(Clone, Copy, PartialEq, Eq)]
enum End {
    Done,
    WentOff(u32, u32),
    Dark,
    Stuck,
    // It came back with another buffer.
    OtherBuffer,
}

// The group of a session: without volumes, also with quorum checking off, or with a volume of one logical partition
// that has a copy on disk 1 and one on disk 2.
#[derive(Clone, Copy)]
enum Group {
    Plain,
    NoQuorum,
    Mirrored,
}

// How the commits of a descriptor and then of a status ended, each after how many calls of the shelf, and what they
// left committed. After a descriptor that wasn't committed no status is tried.
#[derive(Clone, Copy, PartialEq, Eq)]
struct Ran {
    described: (End, u64),
    stated: (End, u64),
    stamp: Stamp,
    // Of the three disks: which are missing, and whose partition is stale.
    missing: [bool; 3],
    stale: [bool; 3],
}

struct Case {
    name: &'static str,
    group: Group,
    plan: &'static [Planned],
    // The partition that the status calls stale.
    stale: Option<Pp>,
    ran: Ran,
}

static CASES: [Case; 12] = [
    Case {
        name: "a record goes to each member",
        group: Group::Plain,
        plan: &[],
        stale: Some(SECOND),
        // Nothing was wanted with the descriptor, so no status was written.
        ran: Ran {
            described: (End::Done, 6),
            stated: (End::Done, 12),
            stamp: Stamp { epoch: 50, seq: 2 },
            missing: [false, false, false],
            stale: [false, false, true],
        },
    },
    Case {
        name: "nothing is written where nothing is wanted",
        group: Group::Plain,
        plan: &[],
        stale: None,
        ran: Ran {
            described: (End::Done, 6),
            stated: (End::Done, 6),
            stamp: Stamp { epoch: 50, seq: 1 },
            missing: [false, false, false],
            stale: [false, false, false],
        },
    },
    // The status goes to the two others.
    Case {
        name: "a member that fails at the descriptor is missing",
        group: Group::Plain,
        plan: &[Planned {
            call: 3,
            act: Act::Fail(1),
        }],
        stale: None,
        ran: Ran {
            described: (End::Done, 10),
            stated: (End::Done, 10),
            stamp: Stamp { epoch: 50, seq: 2 },
            missing: [false, true, false],
            stale: [false, false, false],
        },
    },
    // The first of the two has the partition stale, the second disk 2 missing too.
    Case {
        name: "a status whose write fails is written again",
        group: Group::Plain,
        plan: &[Planned {
            call: 11,
            act: Act::Fail(2),
        }],
        stale: Some(SECOND),
        ran: Ran {
            described: (End::Done, 6),
            stated: (End::Done, 16),
            stamp: Stamp { epoch: 50, seq: 3 },
            missing: [false, false, true],
            stale: [false, false, true],
        },
    },
    Case {
        name: "a copy on a member that is lost at a descriptor becomes stale",
        group: Group::Mirrored,
        plan: &[Planned {
            call: 3,
            act: Act::Fail(1),
        }],
        stale: None,
        ran: Ran {
            described: (End::Done, 10),
            stated: (End::Done, 10),
            stamp: Stamp { epoch: 50, seq: 2 },
            missing: [false, true, false],
            stale: [false, true, false],
        },
    },
    Case {
        name: "and so does one on a member that is lost at a status",
        group: Group::Mirrored,
        plan: &[Planned {
            call: 9,
            act: Act::Fail(1),
        }],
        stale: Some(ZEROTH),
        ran: Ran {
            described: (End::Done, 6),
            stated: (End::Done, 16),
            stamp: Stamp { epoch: 50, seq: 3 },
            missing: [false, true, false],
            stale: [true, true, false],
        },
    },
    // The other copy is stale already.
    Case {
        name: "the last fresh copy stays so",
        group: Group::Mirrored,
        plan: &[Planned {
            call: 9,
            act: Act::Fail(1),
        }],
        stale: Some(SECOND),
        ran: Ran {
            described: (End::Done, 6),
            stated: (End::Done, 16),
            stamp: Stamp { epoch: 50, seq: 3 },
            missing: [false, true, false],
            stale: [false, false, true],
        },
    },
    // No status is written.
    Case {
        name: "without its votes a group goes off",
        group: Group::Plain,
        plan: &[
            Planned {
                call: 1,
                act: Act::Fail(0),
            },
            Planned {
                call: 1,
                act: Act::Fail(1),
            },
        ],
        stale: None,
        ran: Ran {
            described: (End::WentOff(1, 3), 6),
            stated: (End::WentOff(1, 3), 6),
            stamp: Stamp { epoch: 50, seq: 1 },
            missing: [false, false, false],
            stale: [false, false, false],
        },
    },
    Case {
        name: "and so it does where they are lost at a status",
        group: Group::Plain,
        plan: &[
            Planned {
                call: 7,
                act: Act::Fail(0),
            },
            Planned {
                call: 7,
                act: Act::Fail(1),
            },
        ],
        stale: Some(SECOND),
        ran: Ran {
            described: (End::Done, 6),
            stated: (End::WentOff(1, 3), 12),
            stamp: Stamp { epoch: 50, seq: 2 },
            missing: [false, false, false],
            stale: [false, false, false],
        },
    },
    Case {
        name: "one member is enough with quorum checking off",
        group: Group::NoQuorum,
        plan: &[
            Planned {
                call: 1,
                act: Act::Fail(0),
            },
            Planned {
                call: 1,
                act: Act::Fail(1),
            },
        ],
        stale: Some(SECOND),
        ran: Ran {
            described: (End::Done, 8),
            stated: (End::Done, 10),
            stamp: Stamp { epoch: 50, seq: 3 },
            missing: [true, true, false],
            stale: [false, false, true],
        },
    },
    Case {
        name: "and none is too few",
        group: Group::NoQuorum,
        plan: &[
            Planned {
                call: 1,
                act: Act::Fail(0),
            },
            Planned {
                call: 1,
                act: Act::Fail(1),
            },
            Planned {
                call: 1,
                act: Act::Fail(2),
            },
        ],
        stale: None,
        ran: Ran {
            described: (End::WentOff(0, 3), 6),
            stated: (End::WentOff(0, 3), 6),
            stamp: Stamp { epoch: 50, seq: 1 },
            missing: [false, false, false],
            stale: [false, false, false],
        },
    },
    Case {
        name: "nothing is heard until the patience has run out",
        group: Group::Plain,
        plan: &[Planned {
            call: 1,
            act: Act::Delay(2_000),
        }],
        stale: None,
        ran: Ran {
            described: (End::Stuck, 1_001),
            stated: (End::Stuck, 1_001),
            stamp: Stamp { epoch: 50, seq: 1 },
            missing: [false, false, false],
            stale: [false, false, false],
        },
    },
];

fn end_of(settled: CommitEnd) -> End {
    match settled {
        CommitEnd::Done { buf } if buf.number() == 9 => End::Done,
        CommitEnd::WentOff { have, total, buf } if buf.number() == 9 => End::WentOff(have, total),
        CommitEnd::Dark => End::Dark,
        CommitEnd::Stuck => End::Stuck,
        _ => End::OtherBuffer,
    }
}

fn group_of(rt: &(impl Abort + AllocGlobal), is: Group) -> Descriptor {
    let mut group = group(rt.alloc(), ID, 3).expect(rt, "a group");
    group.quorum = is != Group::NoQuorum;
    if is == Group::Mirrored {
        group.lvs = volume(rt.alloc(), Mode::Off, [FIRST, SECOND]).expect(rt, "memory");
    }
    group
}

// A table with a row for each member and nothing stale.
fn first_table(rt: &(impl Abort + AllocGlobal)) -> StaleTable {
    let status = status(rt.alloc(), ID, 3, false).expect(rt, "memory");
    assert!(rt; status.is_valid());
    StaleTable::from_status(rt.alloc(), &status).expect(rt, "memory")
}

fn first_updater(rt: &(impl Abort + AllocGlobal), d: &Descriptor) -> Updater
    ensures own { IsOf d.now result }
    ensures settled { result.committed ≡ result.wanted }
{
    let table = first_table(rt);
    assert!(rt; d.is_valid() && Updater::has_its_rows(d, &table));
    let mut updater = Updater::new(rt.alloc(), table, d).expect(rt, "memory");
    updater.set_stamp(stamp(50, 0));
    updater
}

// Whether each member's disk is one of so many.
fn are_below(d: &Descriptor, disks: u16) -> bool
    ensures { IsTrue result → All (λ (row : pv_row). row.disk < disks) d.now.pvs }
{
    d.pvs.as_slice().iter().all(|row| row.disk < disks)
}

// Whether records may be written.
fn is_ready<S: Shelf>(shelf: &S, d: &Descriptor, updater: &Updater) -> bool
    requires { IsOf d.now updater.now }
    ensures may { IsTrue result → MaySettle d.now updater.now (S.device shelf.now) }
    ensures numbers { IsTrue result → HasNumbers 2 updater.now }
{
    let stamp = updater.stamp();
    if !d.is_valid() || stamp.epoch == 0 || stamp.seq > 1000 {
        return false;
    }
    if let Some(_) = updater.in_flight() {
        return false;
    }
    let wanted = updater.wanted();
    if wanted.as_status().id != d.id || !Updater::has_its_rows(d, wanted) {
        return false;
    }
    if !has_room(shelf) || !are_below(d, shelf.disks()) {
        return false;
    }
    let (have, _) = updater.votes();
    d.enough_to_write(have)
}

fn content_of(rt: &(impl Abort + AllocGlobal), d: &Descriptor) -> Rows<u8>
    ensures describes { descriptor_of result ≡ Ok d.now }
    ensures fits { length result ≤ 571388 }
{
    if !d.is_valid() {
        panic!(rt; "no group");
    }
    let content = lvm_vgda::encode(rt.alloc(), d).expect(rt, "memory");
    assert!(rt; content.len() <= 571_388);
    content
}

// Room for the largest status.
fn room(rt: &(impl Abort + AllocGlobal)) -> Vec<u8>
    ensures { length result.items ≡ 31740 }
{
    vec![in rt.alloc(); 0; 31_740].expect(rt, "memory")
}

fn describe<S: Shelf>(
    rt: &(impl Abort + AllocGlobal),
    shelf: &mut S,
    d: &Descriptor,
    updater: &mut Updater,
    homes: &mut Homes,
) -> End
    requires own { IsOf d.now updater.old }
    requires settled { updater.old.committed ≡ updater.old.wanted }
    ensures { IsOf d.now updater.new }
{
    assert!(rt; shelf.flights() == 0);
    relight(shelf);
    let content = content_of(rt, d);
    let mut bytes = room(rt);
    let buf = Pbuf::fresh(rt.alloc(), 9).expect(rt, "memory");
    let mut patience = Patience { left: 1_000 };
    assert!(rt; is_ready(shelf, d, updater));
    end_of(commit_descriptor(
        shelf,
        d,
        updater,
        homes,
        content.as_slice(),
        &mut bytes,
        buf,
        &mut patience,
    ))
}

fn state<S: Shelf>(
    rt: &(impl Abort + AllocGlobal),
    shelf: &mut S,
    d: &Descriptor,
    updater: &mut Updater,
    homes: &mut Homes,
) -> End
    requires { IsOf d.now updater.old }
{
    assert!(rt; shelf.flights() == 0);
    relight(shelf);
    let mut bytes = room(rt);
    let buf = Pbuf::fresh(rt.alloc(), 9).expect(rt, "memory");
    let mut patience = Patience { left: 1_000 };
    assert!(rt; is_ready(shelf, d, updater));
    end_of(commit_status(shelf, d, updater, homes, &mut bytes, buf, &mut patience))
}

// The partition, if it is one, is wanted stale.
fn mark(rt: &impl Abort, d: &Descriptor, updater: &mut Updater, stale: Option<Pp>)
    requires { IsOf d.now updater.old }
    ensures { IsOf d.now updater.new }
{
    if let Some(pp) = stale {
        assert!(rt; updater.wanted().has_row(pp.disk) && pp.pp < 1016);
        updater.want(Change::Stale(pp));
    }
}

fn missing_of(updater: &Updater) -> [bool; 3] {
    let committed = updater.committed();
    [
        committed.is_missing(0),
        committed.is_missing(1),
        committed.is_missing(2),
    ]
}

fn stale_of(updater: &Updater) -> [bool; 3] {
    let committed = updater.committed();
    [
        committed.is_stale(ZEROTH),
        committed.is_stale(FIRST),
        committed.is_stale(SECOND),
    ]
}

fn run(
    rt: &(impl Abort + AllocGlobal),
    shelf: &mut MemShelf,
    d: &Descriptor,
    stale: Option<Pp>,
) -> Ran {
    let mut updater = first_updater(rt, d);
    let mut homes = first_homes();
    let described = describe(rt, shelf, d, &mut updater, &mut homes);
    let described = (described, shelf.calls());
    let stated = if described.0 == End::Done {
        mark(rt, d, &mut updater, stale);
        state(rt, shelf, d, &mut updater, &mut homes)
    } else {
        described.0
    };
    Ran {
        described,
        stated: (stated, shelf.calls()),
        stamp: updater.stamp(),
        missing: missing_of(&updater),
        stale: stale_of(&updater),
    }
}

#[test]
fn records_are_committed(rt: HostRuntime) {
    for case in &CASES {
        let mut shelf = blank_shelf(rt.alloc(), &SIZES, case.plan, 0).expect(&rt, "disks");
        let group = group_of(&rt, case.group);
        let ran = run(&rt, &mut shelf, &group, case.stale);
        check(&rt, ran == case.ran, case.name);
    }
}
