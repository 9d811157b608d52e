use crate::tests::fixtures::{check, check_at};
use lvm_fields::Fault;
use lvm_num::{Descriptor, LvRow, Mode, Name, Policy, Pp, PvRow, Rows};
use lvm_tests_values::{Member, group, members};
use lvm_vgda::{decode, encode};
use std::process::Abort;

// A group of three disks without a volume.
const THREE: [u8; 72] =
    *b"VGD1\0\0\0\0\0\0\0\x32datavg\0\0\0\0\0\0\0\0\0\0\0\x01\x01\0\0\x03\0\0\0\0\0\0\0\0\0\0\0\0\0\0\0\0\0\x06\0\0\0\0\0\x01\0\x06\0\0\0\0\0\x02\0\x06\0\0\0\0";

// A big group of two disks, of which each has a vote, with a volume of two copies and one of one.
const TWO: [u8; 64] =
    *b"VGD2\0\0\0\0\0\0\0\x32datavg\0\0\0\0\0\0\0\0\0\0\0\x01\0\x01\0\x02\0\x02\0\0\0\0\0\0\0\0\0\0\0\0\0\0\0\x06\x01\0\0\0\0\x01\0\x06\0\0\0\0";

const LV00: [u8; 32] = *b"\0\x01\x02\x01\x03\0\0\0\0\0\0\x02lv00\0\0\0\0\0\0\0\0\0\0\0\0\0\0\0\0";

const LV01: [u8; 32] = *b"\0\x02\x01\x02\0\0\0\0\0\0\0\x01lv01\0\0\0\0\0\0\0\0\0\0\0\0\0\0\0\0";

const MAPS: [u8; 20] = *b"\0\0\0\0\0\x01\0\0\0\0\0\x01\0\x01\0\x01\0\0\0\x02";

const MEMBERS: [Member; 3] = [(0, 6, false), (1, 6, false), (2, 6, false)];

fn encoded(rt: &(impl Abort + AllocGlobal), group: &Descriptor) -> Rows<u8> {
    let valid = group.is_valid();
    check(rt, valid, "valid");
    encode(rt.alloc(), group).expect(rt, "memory")
}

fn decoded(rt: &(impl Abort + AllocGlobal), bytes: &[u8]) -> Descriptor {
    decode(rt.alloc(), bytes).expect(rt, "a descriptor")
}

fn three(rt: &(impl Abort + AllocGlobal), big: bool) -> Descriptor {
    let mut group = group(rt.alloc(), &MEMBERS, &[]).expect(rt, "a group");
    group.big = big;
    group
}

// Whether the group is written as these bytes, and is read of them.
fn is_as(rt: &(impl Abort + AllocGlobal), group: &Descriptor, bytes: &[u8]) -> [bool; 2] {
    let written = encoded(rt, group).as_slice() == bytes;
    [written, decoded(rt, bytes) == *group]
}

static VERSIONS: [(bool, u8); 2] = [(false, b'1'), (true, b'2')];

#[test]
fn three_disks_are_written_and_read_in_both_versions(rt: HostRuntime) {
    let mut want = THREE;
    for (big, version) in &VERSIONS {
        want[3] = *version;
        let group = three(&rt, *big);
        check(&rt, is_as(&rt, &group, &want) == [true; 2], "bytes");
    }
}

// The bytes of the group of two disks.
fn two(rt: &(impl Abort + AllocGlobal)) -> Vec<u8> {
    let mut bytes = TWO.to_vec(rt.alloc()).expect(rt, "memory");
    bytes.extend_from_slice(&LV00).expect(rt, "memory");
    bytes.extend_from_slice(&LV01).expect(rt, "memory");
    bytes.extend_from_slice(&MAPS).expect(rt, "memory");
    bytes
}

// The place of the first fault.
fn fault_in(rt: &(impl Abort + AllocGlobal), bytes: &[u8]) -> Option<usize> {
    match decode(rt.alloc(), bytes) {
        Err(Fault::At(place)) => Some(place),
        _ => None,
    }
}

// what, the bytes that are put over others, the place of the fault
static FAULTS: [(&str, &[(usize, u8)], usize); 43] = [
    ("magic", &[(0, b'W')], 0),
    ("version 3", &[(3, b'3')], 0),
    ("id 0", &[(11, 0)], 4),
    ("no name", &[(12, 0)], 12),
    ("digit first", &[(12, b'9')], 12),
    ("padding", &[(27, 1)], 12),
    ("size 3", &[(29, 3)], 28),
    ("size 2048", &[(28, 8), (29, 0)], 28),
    ("quorum", &[(30, 2)], 30),
    ("even", &[(31, 2)], 31),
    ("even of three", &[(33, 3)], 31),
    ("even of none", &[(33, 0)], 31),
    ("no members", &[(31, 0), (33, 0)], 32),
    ("129 members", &[(31, 0), (33, 129)], 32),
    ("33 of few", &[(3, b'1'), (31, 0), (33, 33)], 32),
    ("512 volumes", &[(34, 2), (35, 0)], 34),
    ("256 of few", &[(3, b'1'), (34, 1), (35, 0)], 34),
    ("head's zeros", &[(47, 1)], 36),
    ("disk 128", &[(49, 128)], 48),
    ("disk twice", &[(57, 0)], 56),
    ("no partitions", &[(51, 0)], 50),
    ("1017 partitions", &[(50, 3), (51, 0xf9)], 50),
    ("spare", &[(52, 2)], 52),
    ("member's zeros", &[(55, 1)], 53),
    ("volume 0", &[(65, 0)], 64),
    ("volume 512", &[(96, 2), (97, 0)], 96),
    ("number falls", &[(65, 3)], 96),
    ("number twice", &[(97, 1)], 96),
    ("no copies", &[(66, 0)], 66),
    ("four copies", &[(66, 4)], 66),
    ("mode", &[(67, 3)], 67),
    ("policy", &[(68, 4)], 68),
    ("volume's zeros", &[(71, 1)], 69),
    ("no LPs", &[(75, 0)], 72),
    (
        "disk's name",
        &[(76, b'h'), (77, b'd'), (78, b'i'), (79, b's'), (80, b'k')],
        76,
    ),
    ("name twice", &[(111, b'0')], 108),
    ("last zeros", &[(127, 1)], 124),
    ("no member", &[(129, 2)], 128),
    ("partition 6", &[(131, 6)], 130),
    ("one disk", &[(133, 0)], 132),
    ("partition twice", &[(139, 0)], 138),
    ("another's partition", &[(147, 1)], 146),
    ("the first of two", &[(129, 2), (52, 2)], 52),
];

fn fault_with(rt: &(impl Abort + AllocGlobal), changes: &[(usize, u8)]) -> Option<usize> {
    let mut bytes = two(rt);
    for (at, byte) in changes {
        *bytes.get_mut(*at).expect(rt, "a place") = *byte;
    }
    fault_in(rt, &bytes)
}

#[test]
fn each_rule_is_refused_at_its_place(rt: HostRuntime) {
    for (what, changes, place) in &FAULTS {
        check(&rt, fault_with(&rt, changes) == Some(*place), what);
    }
}

#[test]
fn all_of_the_bytes_are_needed_and_none_more(rt: HostRuntime) {
    let mut bytes = two(&rt);
    let again = encoded(&rt, &decoded(&rt, &bytes));
    check(&rt, again.as_slice() == bytes.as_slice(), "again");
    for len in 0..148 {
        let front = bytes.get(..len).expect(&rt, "bytes");
        check_at(&rt, fault_in(&rt, front) == Some(len), "bytes", len);
    }
    bytes.push(0).expect(&rt, "memory");
    check(&rt, fault_in(&rt, &bytes) == Some(148), "a byte more");
    check(&rt, fault_in(&rt, &THREE[..71]) == Some(71), "three disks");
}

// A name of its own for each number.
fn numbered(rt: &impl Abort, number: u16) -> Name {
    let digit = |value: u16| b'0' + (value % 10) as u8;
    let bytes = [
        b'l',
        b'v',
        digit(number / 100),
        digit(number / 10),
        digit(number),
    ];
    Name::read(&bytes).expect(rt, "a name")
}

// The partition after this one, of disks with 1,016 each.
fn after(pp: Pp) -> Pp {
    if pp.pp < 1015 {
        Pp {
            disk: pp.disk,
            pp: pp.pp + 1,
        }
    } else {
        Pp {
            disk: pp.disk.saturating_add(1),
            pp: 0,
        }
    }
}

// So many partitions from this one on, which becomes the one after them.
fn next_map(rt: &(impl Abort + AllocGlobal), free: &mut Pp, lps: u32) -> Rows<Pp> {
    let mut map = Vec::new(rt.alloc());
    for _ in 0..lps {
        map.push(*free).expect(rt, "memory");
        *free = after(*free);
    }
    Rows::new(map)
}

fn next_volume(rt: &(impl Abort + AllocGlobal), number: u16, free: &mut Pp, lps: u32) -> LvRow {
    LvRow {
        number,
        name: numbered(rt, number),
        copies: 1,
        mode: Mode::Passive,
        policy: Policy::Parallel,
        lps,
        map: next_map(rt, free, lps),
    }
}

// So many volumes of as many partitions each, and the last one of twice as many.
fn full_volumes(rt: &(impl Abort + AllocGlobal), count: u16, each: u32) -> Rows<LvRow> {
    let mut lvs = Vec::new(rt.alloc());
    let mut free = Pp { disk: 0, pp: 0 };
    for number in 1..=count {
        let lps = if number == count {
            each.saturating_mul(2)
        } else {
            each
        };
        lvs.push(next_volume(rt, number, &mut free, lps))
            .expect(rt, "memory");
    }
    Rows::new(lvs)
}

// So many members with 1,016 partitions.
fn full_members(rt: &(impl Abort + AllocGlobal), count: u16) -> Rows<PvRow> {
    let mut rows = Vec::new(rt.alloc());
    for disk in 0..count {
        rows.push((disk, 1016, true)).expect(rt, "memory");
    }
    members(rt.alloc(), &rows).expect(rt, "memory")
}

// So many members, and so many volumes that have all of their partitions.
fn full_group(rt: &(impl Abort + AllocGlobal), big: bool, pvs: u16, lvs: u16) -> Descriptor {
    let each = u32::from(pvs) * 1016 / (u32::from(lvs) + 1);
    let mut group = group(rt.alloc(), &[], &[]).expect(rt, "a group");
    group.big = big;
    group.pvs = full_members(rt, pvs);
    group.lvs = full_volumes(rt, lvs, each);
    group
}

// How many bytes the group has, where it is read of them again.
fn read_again(rt: &(impl Abort + AllocGlobal), group: &Descriptor) -> Option<usize> {
    let bytes = encoded(rt, group);
    let same = decoded(rt, bytes.as_slice()) == *group;
    same.then_some(bytes.len())
}

// whether it is big, how many members and volumes, and how many bytes
static LARGEST: [(bool, u16, u16, usize); 3] = [
    (false, 32, 0, 304),
    (false, 32, 255, 138_512),
    (true, 128, 511, 537_616),
];

#[test]
fn the_largest_of_each_version_is_read_again(rt: HostRuntime) {
    for (big, members, volumes, len) in &LARGEST {
        let group = full_group(&rt, *big, *members, *volumes);
        check_at(&rt, read_again(&rt, &group) == Some(*len), "bytes", *len);
    }
}
