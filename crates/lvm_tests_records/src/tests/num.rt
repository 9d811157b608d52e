use crate::tests::fixtures::check;
use lvm_num::{Descriptor, DiskSet, Name, Pp, PvRow, Rows};
use lvm_tests_values::{Member, Volume, group, members, status, volume};
use std::process::Abort;

type Disks = &'static [Member];

const TWO: Disks = &[(0, 6, false), (4, 6, false)];

type Map = &'static [(u16, u16)];

const MAP: Map = &[(0, 0), (4, 0), (0, 5), (4, 1)];

const LV: Volume = (1, "lv00", 2, 2, MAP);

// what, id, MiB, even, members, valid
static HEADS: [(&str, u64, u16, bool, Disks, bool); 15] = [
    ("two members", 50, 1, false, TWO, true),
    ("no id", 0, 1, false, TWO, false),
    ("the greatest size", 50, 1024, false, TWO, true),
    ("no size", 50, 0, false, TWO, false),
    ("size 3", 50, 3, false, TWO, false),
    ("size 2048", 50, 2048, false, TWO, false),
    ("even", 50, 1, true, TWO, true),
    ("one even", 50, 1, true, &[(0, 6, false)], false),
    (
        "three even",
        50,
        1,
        true,
        &[(0, 6, false), (1, 6, false), (2, 6, false)],
        false,
    ),
    ("no member", 50, 1, false, &[], false),
    ("the last disk", 50, 1, false, &[(127, 1016, false)], true),
    ("disk 128", 50, 1, false, &[(128, 6, false)], false),
    ("no partition", 50, 1, false, &[(0, 0, false)], false),
    ("1017 partitions", 50, 1, false, &[(0, 1017, false)], false),
    (
        "a disk twice",
        50,
        1,
        false,
        &[(3, 6, false), (3, 5, false)],
        false,
    ),
];

static VOLUMES: [(&str, &[Volume], bool); 19] = [
    ("a volume", &[LV], true),
    ("0", &[(0, "lv00", 2, 2, MAP)], false),
    ("255", &[(255, "lv00", 2, 2, MAP)], true),
    ("256", &[(256, "lv00", 2, 2, MAP)], false),
    ("no copy", &[(1, "lv00", 0, 2, &[])], false),
    ("four copies", &[(1, "lv00", 4, 1, MAP)], false),
    ("no partition", &[(1, "lv00", 2, 0, &[])], false),
    ("short", &[(1, "lv00", 2, 1, &[(0, 0)])], false),
    ("long", &[(1, "lv00", 2, 1, MAP)], false),
    ("no member", &[(1, "a", 1, 1, &[(3, 0)])], false),
    ("no disk", &[(1, "a", 1, 1, &[(128, 0)])], false),
    ("partition 6", &[(1, "a", 1, 1, &[(4, 6)])], false),
    ("a disk twice", &[(1, "a", 2, 1, &[(0, 0), (0, 1)])], false),
    ("twice", &[(1, "a", 1, 2, &[(0, 0), (0, 0)])], false),
    ("three", &[(1, "a", 3, 1, &[(0, 0), (4, 0), (0, 1)])], false),
    ("fall", &[LV, (1, "a", 1, 1, &[(0, 1)])], false),
    ("a name twice", &[LV, (2, "lv00", 1, 1, &[(0, 1)])], false),
    ("two volumes", &[LV, (2, "a", 1, 1, &[(0, 1)])], true),
    ("both", &[LV, (2, "a", 1, 1, &[(0, 5)])], false),
];

static NAMES: [(&str, bool); 20] = [
    ("a", true),
    ("Z9_", true),
    ("abcdefghijklmno", true),
    ("hdis", true),
    ("Hdisk0", true),
    ("xhdisk", true),
    ("", false),
    ("abcdefghijklmnop", false),
    ("hdisk", false),
    ("hdisk0", false),
    ("9a", false),
    ("_a", false),
    ("a-b", false),
    ("a b", false),
    ("a@", false),
    ("a[", false),
    ("a`", false),
    ("a{", false),
    ("a/", false),
    ("a:", false),
];

#[test]
fn names_are_refused_at_each_rule(rt: HostRuntime) {
    for (text, is) in &NAMES {
        check(&rt, Name::read(text.as_bytes()).is_some() == *is, text);
    }
}

fn is_head(
    rt: &(impl Abort + AllocGlobal),
    id: u64,
    mib: u16,
    even: bool,
    disks: &[Member],
) -> bool {
    let mut group = group(rt.alloc(), disks, &[]).expect(rt, "a group");
    group.id = id;
    group.mib = mib;
    group.even = even;
    group.is_valid()
}

#[test]
fn heads_and_members_are_refused_at_each_rule(rt: HostRuntime) {
    for (what, id, mib, even, disks, valid) in &HEADS {
        check(&rt, is_head(&rt, *id, *mib, *even, disks) == *valid, what);
    }
}

fn has_volumes(rt: &(impl Abort + AllocGlobal), volumes: &[Volume]) -> bool {
    group(rt.alloc(), TWO, volumes)
        .expect(rt, "a group")
        .is_valid()
}

#[test]
fn volumes_are_refused_at_each_rule(rt: HostRuntime) {
    for (what, volumes, valid) in &VOLUMES {
        check(&rt, has_volumes(&rt, volumes) == *valid, what);
    }
}

// So many members of 1,016 partitions.
fn many(rt: &(impl Abort + AllocGlobal), count: u16) -> Rows<PvRow> {
    let mut rows = Vec::new(rt.alloc());
    for disk in 0..count {
        rows.push((disk, 1016, false)).expect(rt, "memory");
    }
    members(rt.alloc(), &rows).expect(rt, "memory")
}

fn group_of_many(rt: &(impl Abort + AllocGlobal), disks: u16, big: bool) -> Descriptor {
    let mut group = group(rt.alloc(), &[], &[]).expect(rt, "a group");
    group.big = big;
    group.pvs = many(rt, disks);
    group
}

// how many members, whether the group is big, and whether it is valid
static MANY: [(u16, bool, bool); 5] = [
    (32, false, true),
    (33, false, false),
    (33, true, true),
    (128, true, true),
    (129, true, false),
];

fn is_group_of(rt: &(impl Abort + AllocGlobal), disks: u16, big: bool) -> bool {
    group_of_many(rt, disks, big).is_valid()
}

#[test]
fn a_big_group_has_more_members(rt: HostRuntime) {
    for (disks, big, valid) in &MANY {
        check(&rt, is_group_of(&rt, *disks, *big) == *valid, "members");
    }
}

// All partitions of 128 disks, but that the last one is the one given.
fn full_map(rt: &(impl Abort + AllocGlobal), last: Pp) -> Rows<Pp> {
    let mut map = Vec::new(rt.alloc());
    for disk in 0..128 {
        for pp in 0..1016 {
            map.push(Pp { disk, pp }).expect(rt, "memory");
        }
    }
    map.pop();
    map.push(last).expect(rt, "memory");
    Rows::new(map)
}

// One volume on all of them.
fn full_group(rt: &(impl Abort + AllocGlobal), last: Pp) -> Descriptor {
    let mut row = volume(rt.alloc(), &(511, "lv00", 1, 130_048, &[])).expect(rt, "a volume");
    row.map = full_map(rt, last);
    let mut lvs = Vec::new(rt.alloc());
    lvs.push(row).expect(rt, "memory");
    let mut group = group_of_many(rt, 128, true);
    group.lvs = Rows::new(lvs);
    group
}

#[test]
fn a_partition_used_twice_is_found_in_the_fullest_group(rt: HostRuntime) {
    let last = Pp {
        disk: 127,
        pp: 1015,
    };
    let first = Pp { disk: 0, pp: 0 };
    check(&rt, full_group(&rt, last).is_valid(), "each once");
    check(
        &rt,
        !full_group(&rt, first).is_valid(),
        "the first one twice",
    );
}

// what, big, disks, dirty, valid
static STATUSES: [(&str, bool, &[u16], &[u16], bool); 12] = [
    ("two rows", false, &[0, 127], &[], true),
    ("no row", false, &[], &[], false),
    ("disk 128", false, &[128], &[], false),
    ("disks that fall", false, &[1, 0], &[], false),
    ("a disk twice", false, &[1, 1], &[], false),
    ("a big group", true, &[0, 1], &[], true),
    ("dirty volumes", false, &[0], &[1, 511], true),
    ("volume 0", false, &[0], &[0], false),
    ("volume 512", false, &[0], &[512], false),
    ("a volume twice", false, &[0], &[7, 7], false),
    ("volumes that fall", false, &[0], &[7, 6], false),
    ("volumes that rise", false, &[0], &[6, 7], true),
];

fn is_status(
    rt: &(impl Abort + AllocGlobal),
    id: u64,
    big: bool,
    disks: &[u16],
    dirty: &[u16],
) -> bool {
    let mut status = status(rt.alloc(), disks, 0xff, dirty).expect(rt, "memory");
    status.id = id;
    status.big = big;
    status.is_valid()
}

#[test]
fn statuses_are_refused_at_each_rule(rt: HostRuntime) {
    for (what, big, disks, dirty, valid) in &STATUSES {
        check(&rt, is_status(&rt, 50, *big, disks, dirty) == *valid, what);
    }
}

fn is_status_of_first(rt: &(impl Abort + AllocGlobal), id: u64, big: bool, count: u16) -> bool {
    let mut disks = Vec::new(rt.alloc());
    for disk in 0..count {
        disks.push(disk).expect(rt, "memory");
    }
    is_status(rt, id, big, &disks, &[])
}

// id, big, how many rows, valid
static OF_FIRST: [(u64, bool, u16, bool); 4] = [
    (50, false, 32, true),
    (50, false, 33, false),
    (50, true, 33, true),
    (0, true, 33, false),
];

#[test]
fn a_big_status_has_more_rows(rt: HostRuntime) {
    for (id, big, count, valid) in &OF_FIRST {
        check(
            &rt,
            is_status_of_first(&rt, *id, *big, *count) == *valid,
            "rows",
        );
    }
}

#[test]
fn a_set_has_what_was_put_in_last(rt: HostRuntime) {
    let set = DiskSet::empty().with(0).with(127).without(0).without(5);
    check(&rt, !set.has(0) && set.has(127), "127 and not 0");
    check(&rt, set == DiskSet::empty().with(127), "127 alone");
}

// The group of two disks.
fn two_disks(rt: &(impl Abort + AllocGlobal), quorum: bool, even: bool) -> Descriptor {
    let mut group = group(rt.alloc(), TWO, &[]).expect(rt, "a group");
    group.quorum = quorum;
    group.even = even;
    group
}

// The votes of disks 0, 4 and 3.
fn votes(rt: &impl Abort, group: &Descriptor) -> [u32; 3] {
    let valid = group.is_valid();
    check(rt, valid, "valid");
    [group.votes(0), group.votes(4), group.votes(3)]
}

// The votes of all and those of the first.
fn sums(rt: &impl Abort, group: &Descriptor) -> [u32; 2] {
    let valid = group.is_valid();
    check(rt, valid, "valid");
    [
        group.total_votes(),
        group.votes_in(DiskSet::empty().with(0)),
    ]
}

// Whether so many are enough to read and to write.
fn enough(rt: &impl Abort, group: &Descriptor, votes: u32) -> [bool; 2] {
    let valid = group.is_valid();
    check(rt, valid, "valid");
    [group.enough_to_read(votes), group.enough_to_write(votes)]
}

// A group of two disks by its quorum and whether its votes are even: those of the first disk and of all, and whether
// the first's are enough to read and to write.
static VOTES: [(bool, bool, u32, u32, bool, bool); 4] = [
    (true, false, 2, 3, true, true),
    (true, true, 1, 2, false, false),
    (false, false, 2, 3, false, true),
    (false, true, 1, 2, false, true),
];

// What is enough for three of two disks, for two of two that are even, and without a quorum.
#[test]
fn two_disks_have_three_votes_unless_even(rt: HostRuntime) {
    for (quorum, even, first, total, read, write) in &VOTES {
        let group = two_disks(&rt, *quorum, *even);
        check(&rt, votes(&rt, &group) == [*first, 1, 0], "votes");
        check(&rt, sums(&rt, &group) == [*total, *first], "sums");
        check(
            &rt,
            enough(&rt, &group, *first) == [*read, *write],
            "enough",
        );
    }
}
