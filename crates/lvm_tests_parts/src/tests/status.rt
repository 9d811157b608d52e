use crate::tests::fixtures::{check, check_at};
use crate::tests::status::Do::{
    Clean, Clear, Dirty, Ends, Flies, HasStamp, IsDirty, Mark, Miss, Missing, SetStamp, Stale,
    Starts, Votes, Writes, WritesNone,
};
use lvm_num::{Descriptor, Pp, Stamp};
use lvm_status::Progress::{Committed, QuorumLost, Waiting};
use lvm_status::{Change, Progress, StaleTable, Updater};
use lvm_tests_values::{Member, group, table};
use std::process::Abort;

// A table with rows for these disks and nothing stale.
fn table_of(rt: &(impl Abort + AllocGlobal), disks: &[u16]) -> StaleTable {
    table(rt.alloc(), disks, &[]).expect(rt, "a table")
}

fn updater_of(rt: &(impl Abort + AllocGlobal), group: &Descriptor, table: StaleTable) -> Updater {
    let valid = group.is_valid();
    assert!(rt; valid);
    let fits = Updater::has_its_rows(group, &table);
    assert!(rt; fits);
    Updater::new(rt.alloc(), table, group).expect(rt, "memory")
}

const THREE: [Member; 3] = [(9, 6, false), (2, 6, false), (5, 6, false)];

// Three members, of which the first is disk 9.
fn three(rt: &(impl Abort + AllocGlobal), quorum: bool) -> Updater {
    let mut group = group(rt.alloc(), &THREE, &[]).expect(rt, "a group");
    group.quorum = quorum;
    updater_of(rt, &group, table_of(rt, &[2, 5, 9]))
}

// Two members, of which the first is disk 4.
fn two(rt: &(impl Abort + AllocGlobal), even: bool) -> Updater {
    let mut group = group(rt.alloc(), &[(4, 6, false), (1, 6, false)], &[]).expect(rt, "a group");
    group.even = even;
    updater_of(rt, &group, table_of(rt, &[1, 4]))
}

// The partition that the tests speak of.
const SOME: Pp = Pp { disk: 5, pp: 3 };

// What a test does, and what it is answered.
#[derive(Clone, Copy)]
enum Do {
    Mark,
    Clear,
    Miss(u16),
    Dirty,
    Clean,
    Starts(bool),
    Writes(u16),
    WritesNone,
    Ends(u16, bool, Progress),
    // Whether the committed status calls the partition stale, and whether that is settled.
    Stale(bool, bool),
    // Whether the committed status calls the volume dirty.
    IsDirty(bool),
    Missing(u16),
    Flies(bool),
    Votes(u32, u32),
    SetStamp(u64, u32),
    HasStamp(u64, u32),
}

fn want(rt: &impl Abort, updater: &mut Updater, change: Change) {
    match change {
        Change::Stale(pp) | Change::Fresh(pp) => {
            let fits = updater.wanted().has_row(pp.disk) && pp.pp < 1016;
            assert!(rt; fits);
        }
        Change::Missing(disk) => {
            let fits = updater.wanted().has_row(disk);
            assert!(rt; fits);
        }
        Change::Dirty(lv) | Change::Clean(lv) => assert!(rt; 1 <= lv && lv <= 511),
    }
    updater.want(change);
}

fn start(rt: &impl Abort, updater: &mut Updater) -> bool {
    let seq = updater.stamp().seq;
    assert!(rt; seq < u32::MAX);
    updater.start()
}

fn ended(rt: &impl Abort, updater: &mut Updater, disk: u16, ok: bool) -> Progress {
    assert!(rt; disk < 128);
    let out = updater.writes().started.has(disk);
    assert!(rt; out);
    updater.ended(disk, ok)
}

fn set_stamp(rt: &impl Abort, updater: &mut Updater, stamp: Stamp) {
    let none = updater.in_flight().is_none();
    assert!(rt; none);
    updater.set_stamp(stamp);
}

fn is_stale(updater: &Updater, committed: bool, settled: bool) -> bool {
    updater.committed().is_stale(SOME) == committed && updater.is_settled_stale(SOME) == settled
}

// What changes, where that is what a test does.
fn change_of(what: &Do) -> Option<Change> {
    match what {
        Do::Mark => Some(Change::Stale(SOME)),
        Do::Clear => Some(Change::Fresh(SOME)),
        Do::Miss(disk) => Some(Change::Missing(*disk)),
        Do::Dirty => Some(Change::Dirty(511)),
        Do::Clean => Some(Change::Clean(511)),
        _ => None,
    }
}

// Whether it is answered as it is to be.
fn step(rt: &impl Abort, updater: &mut Updater, what: &Do) -> bool {
    if let Some(change) = change_of(what) {
        want(rt, updater, change);
    }
    match what {
        Do::Starts(starts) => start(rt, updater) == *starts,
        Do::Writes(disk) => updater.next_write() == Some(*disk),
        Do::WritesNone => updater.next_write().is_none(),
        Do::Ends(disk, ok, progress) => ended(rt, updater, *disk, *ok) == *progress,
        Do::SetStamp(epoch, seq) => {
            set_stamp(
                rt,
                updater,
                Stamp {
                    epoch: *epoch,
                    seq: *seq,
                },
            );
            true
        }
        _ => is_so(updater, what),
    }
}

fn is_so(updater: &Updater, what: &Do) -> bool {
    match what {
        Do::Stale(committed, settled) => is_stale(updater, *committed, *settled),
        Do::IsDirty(dirty) => updater.committed().is_dirty(511) == *dirty,
        Do::Missing(disk) => updater.wanted().is_missing(*disk),
        Do::Flies(flies) => updater.in_flight().is_some() == *flies,
        Do::Votes(have, total) => updater.votes() == (*have, *total),
        Do::HasStamp(epoch, seq) => has_stamp(updater, *epoch, *seq),
        _ => true,
    }
}

fn has_stamp(updater: &Updater, epoch: u64, seq: u32) -> bool {
    updater.stamp() == Stamp { epoch, seq }
}

// Ends the test at the first step of this name that is answered otherwise.
fn run(rt: &impl Abort, name: &str, updater: &mut Updater, all: &[Do]) {
    for (k, what) in all.iter().enumerate() {
        check_at(rt, step(rt, updater, what), name, k);
    }
}

// Three members, of which disk 2 was missing at the beginning.
fn three_without_2(rt: &(impl Abort + AllocGlobal)) -> Updater {
    let mut table = table_of(rt, &[2, 5, 9]);
    let there = table.has_row(2);
    assert!(rt; there);
    table.set_missing(2, true);
    let group = group(rt.alloc(), &THREE, &[]).expect(rt, "a group");
    updater_of(rt, &group, table)
}

// Two members, of which the first is disk 5.
fn first_5(rt: &(impl Abort + AllocGlobal)) -> Updater {
    let group = group(rt.alloc(), &[(5, 6, false), (1, 6, false)], &[]).expect(rt, "a group");
    updater_of(rt, &group, table_of(rt, &[1, 5]))
}

// Whom an updater is for.
#[derive(Clone, Copy)]
enum Of {
    // Three members, with quorum checking or without.
    Three(bool),
    // The same three, of which disk 2 was missing at the beginning.
    Without2,
    // Two members, of which the first is disk 4, and whose votes are even or not.
    Two(bool),
    // Two members, of which the first is disk 5.
    First5,
}

fn updater(rt: &(impl Abort + AllocGlobal), of: Of) -> Updater {
    match of {
        Of::Three(quorum) => three(rt, quorum),
        Of::Without2 => three_without_2(rt),
        Of::Two(even) => two(rt, even),
        Of::First5 => first_5(rt),
    }
}

static SCRIPTS: [(&str, Of, &[Do]); 16] = [
    (
        "the member on disk 2 fails before the others, is missing and written no more",
        Of::Three(true),
        &[
            Mark,
            Starts(true),
            Writes(2),
            Writes(5),
            Writes(9),
            Ends(2, false, Waiting),
            Missing(2),
            Ends(5, true, Waiting),
            Ends(9, true, Committed),
            Flies(false),
            Votes(2, 3),
            Stale(true, true),
            Starts(true),
            Writes(5),
            Writes(9),
            WritesNone,
        ],
    ),
    (
        "the member on disk 2 fails after the others, is missing and written no more",
        Of::Three(true),
        &[
            Mark,
            Starts(true),
            Writes(2),
            Writes(5),
            Writes(9),
            Ends(5, true, Waiting),
            Ends(9, true, Committed),
            Flies(true),
            Ends(2, false, Waiting),
            Missing(2),
            Flies(false),
            Votes(2, 3),
            Starts(true),
            Writes(5),
            Writes(9),
            WritesNone,
        ],
    ),
    (
        "the member on disk 5 fails before the others, is missing and written no more",
        Of::Three(true),
        &[
            Mark,
            Starts(true),
            Writes(2),
            Writes(5),
            Writes(9),
            Ends(5, false, Waiting),
            Missing(5),
            Ends(2, true, Waiting),
            Ends(9, true, Committed),
            Flies(false),
            Votes(2, 3),
            Stale(true, true),
            Starts(true),
            Writes(2),
            Writes(9),
            WritesNone,
        ],
    ),
    (
        "the member on disk 5 fails after the others, is missing and written no more",
        Of::Three(true),
        &[
            Mark,
            Starts(true),
            Writes(2),
            Writes(5),
            Writes(9),
            Ends(2, true, Waiting),
            Ends(9, true, Committed),
            Flies(true),
            Ends(5, false, Waiting),
            Missing(5),
            Flies(false),
            Votes(2, 3),
            Starts(true),
            Writes(2),
            Writes(9),
            WritesNone,
        ],
    ),
    (
        "the member on disk 9 fails before the others, is missing and written no more",
        Of::Three(true),
        &[
            Mark,
            Starts(true),
            Writes(2),
            Writes(5),
            Writes(9),
            Ends(9, false, Waiting),
            Missing(9),
            Ends(2, true, Waiting),
            Ends(5, true, Committed),
            Flies(false),
            Votes(2, 3),
            Stale(true, true),
            Starts(true),
            Writes(2),
            Writes(5),
            WritesNone,
        ],
    ),
    (
        "the member on disk 9 fails after the others, is missing and written no more",
        Of::Three(true),
        &[
            Mark,
            Starts(true),
            Writes(2),
            Writes(5),
            Writes(9),
            Ends(2, true, Waiting),
            Ends(5, true, Committed),
            Flies(true),
            Ends(9, false, Waiting),
            Missing(9),
            Flies(false),
            Votes(2, 3),
            Starts(true),
            Writes(2),
            Writes(5),
            WritesNone,
        ],
    ),
    (
        "an update goes to each member and is committed by more than half",
        Of::Three(true),
        &[
            Starts(false),
            Mark,
            Starts(true),
            Writes(2),
            Writes(5),
            Writes(9),
            WritesNone,
            Ends(5, true, Waiting),
            Stale(false, false),
            Ends(2, true, Committed),
            Stale(true, true),
            Clear,
            Starts(false),
            Flies(true),
            Ends(9, true, Waiting),
            Flies(false),
            Stale(true, true),
            Votes(3, 3),
            Starts(true),
        ],
    ),
    (
        "an update that ends without its votes stays in flight",
        Of::Three(true),
        &[
            Mark,
            Starts(true),
            Writes(2),
            Writes(5),
            Writes(9),
            Ends(5, true, Waiting),
            Ends(9, false, Waiting),
            Ends(2, false, QuorumLost { have: 1, total: 3 }),
            Flies(true),
            Stale(false, false),
            Starts(false),
            WritesNone,
        ],
    ),
    (
        "the first of two members decides",
        Of::Two(false),
        &[
            Miss(1),
            Starts(true),
            Writes(4),
            WritesNone,
            Ends(4, true, Committed),
            Missing(1),
            Votes(2, 3),
        ],
    ),
    (
        "the first of two members decides",
        Of::Two(false),
        &[
            Dirty,
            Starts(true),
            Writes(1),
            Writes(4),
            Ends(1, true, Waiting),
            Ends(4, false, QuorumLost { have: 1, total: 3 }),
            Flies(true),
            IsDirty(false),
        ],
    ),
    (
        "half of the votes is not enough",
        Of::Two(true),
        &[
            Dirty,
            Starts(true),
            Writes(1),
            Writes(4),
            Ends(4, true, Waiting),
            Ends(1, true, Committed),
            IsDirty(true),
            Clean,
            Starts(true),
            Writes(1),
            Writes(4),
            Ends(4, true, Waiting),
            Ends(1, false, QuorumLost { have: 1, total: 2 }),
            IsDirty(true),
        ],
    ),
    (
        "without quorum checking one member is enough",
        Of::Three(false),
        &[
            Mark,
            Starts(true),
            Writes(2),
            Writes(5),
            Writes(9),
            Ends(2, false, Waiting),
            Ends(9, false, Waiting),
            Ends(5, true, Committed),
            Starts(true),
            Writes(5),
            WritesNone,
            Ends(5, false, QuorumLost { have: 0, total: 3 }),
        ],
    ),
    (
        "an update ends where its last write is given up",
        Of::Three(true),
        &[
            Mark,
            Starts(true),
            Writes(2),
            Writes(5),
            Ends(2, true, Waiting),
            Ends(5, true, Committed),
            Flies(true),
            Miss(9),
            Flies(false),
            WritesNone,
            Starts(true),
            Writes(2),
            Writes(5),
            WritesNone,
        ],
    ),
    (
        "members that were missing at the beginning are not written",
        Of::Without2,
        &[
            Votes(2, 3),
            Mark,
            Starts(true),
            Writes(5),
            Writes(9),
            WritesNone,
        ],
    ),
    (
        "staleness is settled once no later session can find it fresh",
        Of::First5,
        &[
            Mark,
            Starts(true),
            Writes(1),
            Writes(5),
            Ends(5, true, Committed),
            Ends(1, true, Waiting),
            Stale(true, true),
            Clear,
            Stale(true, true),
            Starts(true),
            Stale(true, false),
            Mark,
            Stale(true, false),
        ],
    ),
    (
        "stamps go on from the one that was set",
        Of::Two(false),
        &[
            HasStamp(0, 0),
            SetStamp(60, 2),
            Starts(false),
            HasStamp(60, 2),
            Dirty,
            Starts(true),
            HasStamp(60, 3),
        ],
    ),
];

#[test]
fn updates_go_as_it_is_said(rt: HostRuntime) {
    for (name, of, all) in &SCRIPTS {
        run(&rt, name, &mut updater(&rt, *of), all);
    }
}

static TABLES: [(&[u16], bool); 4] = [
    (&[2, 5, 9], true),
    (&[2, 5, 8], false),
    (&[2, 9], false),
    (&[2, 5, 9, 10], false),
];

// Whether a table of these disks fits the three members.
fn fits(rt: &(impl Abort + AllocGlobal), disks: &[u16]) -> bool {
    let group = group(rt.alloc(), &THREE, &[]).expect(rt, "a group");
    Updater::has_its_rows(&group, &table_of(rt, disks))
}

#[test]
fn a_table_of_other_members_does_not_fit(rt: HostRuntime) {
    for (disks, want) in &TABLES {
        check(&rt, fits(&rt, disks) == *want, "fits");
    }
}
