ghost use Rattle.std.specs.Prelude.{◌≡◌, ◌==◌};
ghost use Rattle.std.specs.List.{find};
ghost use Rattle.std.specs.Option.{option_copied};
ghost use Rattle.lvm_num.specs.Descriptor.{member_of, IsValid};
ghost use Rattle.lvm_num.specs.declared.descriptor.PvRow.{PvRow};

use crate::tests::fixtures::check;
use lvm_num::{Descriptor, Pp, PvRow, Rows, Text, volume_among};
use lvm_show::{show_disk, show_group, show_map, show_volumes};
use lvm_status::StaleTable;
use lvm_tests_values::{Member, Volume, group, table, volume};
use std::process::Abort;

// Members of six partitions on the first disks.
const MEMBERS: [Member; 3] = [(0, 6, false), (1, 6, false), (2, 6, true)];

const VOLUMES: [Volume; 2] = [
    (1, "lv00", 2, 2, &[(0, 0), (1, 0), (0, 1), (1, 1)]),
    (3, "big", 3, 1, &[(0, 2), (1, 2), (2, 0)]),
];

// What is listed.
enum List {
    Group,
    Volumes,
    Map(u16),
    Disk(u16),
}

// The member on a disk.
fn member_of(pvs: &[PvRow], disk: u16) -> Option<&PvRow>
    ensures { option_copied result ≡ find (λ (row : PvRow). row.disk == disk) pvs.now }
{
    pvs.iter().find(|row| row.disk == disk)
}

fn check_valid(rt: &impl Abort, d: &Descriptor)
    ensures { IsValid d.now }
{
    let valid = d.is_valid();
    assert!(rt; valid);
}

fn map(rt: &(impl Abort + AllocGlobal), d: &Descriptor, t: &StaleTable, lv: u16) -> Text {
    check_valid(rt, d);
    let there = volume_among(d.lvs.as_slice(), lv).is_some();
    assert!(rt; there);
    show_map(rt.alloc(), d, t, lv).expect(rt, "memory")
}

fn disk(rt: &(impl Abort + AllocGlobal), d: &Descriptor, t: &StaleTable, disk: u16) -> Text {
    check_valid(rt, d);
    let there = member_of(d.pvs.as_slice(), disk).is_some();
    assert!(rt; there);
    show_disk(rt.alloc(), d, t, disk).expect(rt, "memory")
}

fn all(rt: &(impl Abort + AllocGlobal), d: &Descriptor, t: &StaleTable) -> Text {
    check_valid(rt, d);
    show_group(rt.alloc(), d, t).expect(rt, "memory")
}

fn volumes(rt: &(impl Abort + AllocGlobal), d: &Descriptor, t: &StaleTable) -> Text {
    check_valid(rt, d);
    show_volumes(rt.alloc(), d, t).expect(rt, "memory")
}

fn listed(rt: &(impl Abort + AllocGlobal), d: &Descriptor, t: &StaleTable, list: &List) -> Text {
    match list {
        List::Group => all(rt, d, t),
        List::Volumes => volumes(rt, d, t),
        List::Map(lv) => map(rt, d, t, *lv),
        List::Disk(number) => disk(rt, d, t, *number),
    }
}

// A table of the first three disks, of which nothing is stale.
fn fresh(rt: &(impl Abort + AllocGlobal), disks: &[u16]) -> StaleTable {
    table(rt.alloc(), disks, &[]).expect(rt, "a table")
}

fn mark(rt: &impl Abort, table: &mut StaleTable, disk: u16, pp: u16) {
    let fits = table.has_row(disk) && pp < 1016;
    assert!(rt; fits);
    table.mark(Pp { disk, pp });
}

// A table of three disks where the second is missing. On it a copy of each volume is stale, and on the
// third a partition that no volume has.
fn stale(rt: &(impl Abort + AllocGlobal)) -> StaleTable {
    let mut table = fresh(rt, &[0, 1, 2]);
    let there = table.has_row(1);
    assert!(rt; there);
    table.set_missing(1, true);
    mark(rt, &mut table, 1, 0);
    mark(rt, &mut table, 1, 2);
    mark(rt, &mut table, 2, 5);
    table
}

static NEW: [(usize, &[u16], bool, &str); 4] = [
    (
        1,
        &[0],
        true,
        "VOLUME GROUP datavg\nPP SIZE 1\nPVs 1\nMISSING PVs 0\nLVs 0\nPPs 6\nFREE PPs 6\nSTALE PPs 0\nVGDAs 2\nQUORUM 2\n",
    ),
    (
        2,
        &[0, 1],
        true,
        "VOLUME GROUP datavg\nPP SIZE 1\nPVs 2\nMISSING PVs 0\nLVs 0\nPPs 12\nFREE PPs 12\nSTALE PPs 0\nVGDAs 3\nQUORUM 2\n",
    ),
    (
        2,
        &[0, 1],
        false,
        "VOLUME GROUP datavg\nPP SIZE 1\nPVs 2\nMISSING PVs 0\nLVs 0\nPPs 12\nFREE PPs 12\nSTALE PPs 0\nVGDAs 3\nQUORUM 1\n",
    ),
    (
        3,
        &[0, 1, 2],
        true,
        "VOLUME GROUP datavg\nPP SIZE 1\nPVs 3\nMISSING PVs 0\nLVs 0\nPPs 18\nFREE PPs 18\nSTALE PPs 0\nVGDAs 3\nQUORUM 2\n",
    ),
];

fn empty(rt: &(impl Abort + AllocGlobal), members: &[Member], quorum: bool) -> Descriptor {
    let mut group = group(rt.alloc(), members, &[]).expect(rt, "a group");
    group.quorum = quorum;
    group
}

// The listing of a new group of the first so many members.
fn new_listing(rt: &(impl Abort + AllocGlobal), count: usize, disks: &[u16], quorum: bool) -> Text {
    let members = MEMBERS.get(..count).expect(rt, "members");
    let d = empty(rt, members, quorum);
    all(rt, &d, &fresh(rt, disks))
}

#[test]
fn a_new_group_is_listed(rt: HostRuntime) {
    for (count, disks, quorum, text) in &NEW {
        let shown = new_listing(&rt, *count, disks, *quorum);
        check(&rt, shown.as_str() == *text, text);
    }
}

#[test]
fn a_group_without_volumes_lists_none(rt: HostRuntime) {
    let d = empty(&rt, &MEMBERS, true);
    let shown = volumes(&rt, &d, &fresh(&rt, &[0, 1, 2]));
    check(&rt, shown.as_str().is_empty(), "no line");
}

static LISTS: [(List, &str); 7] = [
    (
        List::Group,
        "VOLUME GROUP datavg\nPP SIZE 1\nPVs 3\nMISSING PVs 1\nLVs 2\nPPs 18\nFREE PPs 11\nSTALE PPs 2\nVGDAs 3\nQUORUM 2\n",
    ),
    (
        List::Volumes,
        "lv00 LPs 2 PPs 4 PVs 2 stale 1\nbig LPs 1 PPs 3 PVs 3 stale 1\n",
    ),
    (
        List::Map(1),
        "0001 0001 hdisk0 0001 hdisk1 stale\n0002 0002 hdisk0 0002 hdisk1\n",
    ),
    (
        List::Map(3),
        "0001 0003 hdisk0 0003 hdisk1 stale 0001 hdisk2\n",
    ),
    (List::Disk(0), "hdisk0 datavg active pps 6 free 3 stale 0\n"),
    (
        List::Disk(1),
        "hdisk1 datavg missing pps 6 free 3 stale 2\n",
    ),
    (List::Disk(2), "hdisk2 datavg active pps 6 free 5 stale 0\n"),
];

#[test]
fn a_group_with_stale_partitions_and_a_missing_disk_is_listed(rt: HostRuntime) {
    let d = group(rt.alloc(), &MEMBERS, &VOLUMES).expect(&rt, "a group");
    let t = stale(&rt);
    for (list, text) in &LISTS {
        let shown = listed(&rt, &d, &t, list);
        check(&rt, shown.as_str() == *text, text);
    }
}

// The first partitions of disks with 1,016 each.
fn first_pps(rt: &(impl Abort + AllocGlobal), count: u16) -> Rows<Pp> {
    let mut pps = Vec::new(rt.alloc());
    for k in 0..count {
        pps.push(Pp {
            disk: k / 1016,
            pp: k % 1016,
        })
        .expect(rt, "memory");
    }
    Rows::new(pps)
}

// A group of ten disks, with one volume of 10,000 partitions.
fn large(rt: &(impl Abort + AllocGlobal)) -> Descriptor {
    let disks = [0, 1, 2, 3, 4, 5, 6, 7, 8, 9].map(|disk| (disk, 1016, false));
    let mut row = volume(rt.alloc(), &(1, "lv00", 1, 10_000, &[])).expect(rt, "a volume");
    row.map = first_pps(rt, 10_000);
    let mut lvs = Vec::new(rt.alloc());
    lvs.push(row).expect(rt, "memory");
    let mut group = group(rt.alloc(), &disks, &[]).expect(rt, "a group");
    group.lvs = Rows::new(lvs);
    group
}

// Logical partitions from 0, with their lines, which are of 17 bytes each.
static LINES: [(u16, &str); 8] = [
    (0, "0001 0001 hdisk0\n"),
    (8, "0009 0009 hdisk0\n"),
    (9, "0010 0010 hdisk0\n"),
    (98, "0099 0099 hdisk0\n"),
    (99, "0100 0100 hdisk0\n"),
    (999, "1000 1000 hdisk0\n"),
    (1_016, "1017 0001 hdisk1\n"),
    (9_998, "9999 0855 hdisk9\n"),
];

fn line_at(text: &Text, lp: u16) -> Option<&[u8]> {
    let at = 17 * usize::from(lp);
    text.as_bytes().get(at..at + 17)
}

// Its map.
fn large_map(rt: &(impl Abort + AllocGlobal)) -> Text {
    map(rt, &large(rt), &fresh(rt, &[0]), 1)
}

fn check_lines(rt: &impl Abort, shown: &Text) {
    for (lp, text) in &LINES {
        check(rt, line_at(shown, *lp) == Some(text.as_bytes()), text);
    }
}

#[test]
fn numbers_have_four_digits_or_more(rt: HostRuntime) {
    let shown = large_map(&rt);
    check_lines(&rt, &shown);
    check(
        &rt,
        shown.as_str().ends_with("\n10000 0856 hdisk9\n"),
        "the last line",
    );
}
