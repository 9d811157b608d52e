use crate::tests::fixtures::check;
use lvm_map::{MapFault, allocate, allocate_more, blocks, place};
use lvm_num::{Descriptor, DiskSet, Place, Pp, Rows};
use lvm_tests_values::{Member, Volume, group};
use std::process::Abort;

type Map = Result<Rows<Pp>, MapFault>;

// Members with their volumes.
type Group = (&'static [Member], &'static [Volume]);

// What is asked for.
enum Ask {
    // So many logical partitions of so many copies.
    New(u32, u8),
    // So many copies of the first volume.
    More(u8),
}

// The partitions that are to be answered, or how many were free.
enum Want {
    At(&'static [(u16, u16)]),
    NoRoom(u32),
}

// Members on disks of 8 MiB.
const MEMBERS: [Member; 3] = [(0, 6, false), (1, 6, false), (2, 6, false)];

const THREE: Group = (&MEMBERS, &[]);

const FULL: Volume = (1, "a", 1, 5, &[(0, 0), (0, 1), (0, 2), (0, 3), (0, 4)]);

const ONE: Volume = (1, "a", 1, 1, &[(0, 0)]);

// Free are 1 and 3 of disk 3, and 0 and 2 of disk 7.
const HOLES: Volume = (1, "a", 1, 3, &[(3, 0), (7, 1), (3, 2)]);

const HOLED: Group = (&[(3, 4, false), (7, 3, false)], &[HOLES]);

const TURNED: Group = (&[(7, 3, false), (3, 4, false)], &[HOLES]);

const SPARED: Group = (&[(3, 4, true), (7, 3, false), (9, 1, false)], &[HOLES]);

// what, the group, the disks that may be used, what is asked, what is to be answered
static FITS: [(&str, &Group, &[u16], Ask, Want); 17] = [
    (
        "copies go to the members in turn",
        &THREE,
        &[0, 1, 2],
        Ask::New(2, 3),
        Want::At(&[(0, 0), (1, 0), (2, 0), (0, 1), (1, 1), (2, 1)]),
    ),
    (
        "more than all",
        &THREE,
        &[0, 1, 2],
        Ask::New(7, 3),
        Want::NoRoom(18),
    ),
    (
        "four copies",
        &THREE,
        &[0, 1, 2],
        Ask::New(1, 4),
        Want::NoRoom(18),
    ),
    ("no partition", &THREE, &[0], Ask::New(0, 3), Want::At(&[])),
    ("no copy", &THREE, &[0], Ask::New(3, 0), Want::At(&[])),
    (
        "a second volume begins where the first ends",
        &(&MEMBERS, &[FULL]),
        &[0, 1, 2],
        Ask::New(2, 2),
        Want::At(&[(0, 5), (1, 0), (1, 1), (2, 0)]),
    ),
    (
        "a second copy goes to the other disk",
        &(&[(0, 6, false), (1, 6, false)], &[ONE]),
        &[0, 1],
        Ask::More(2),
        Want::At(&[(0, 0), (1, 0)]),
    ),
    (
        "holes are filled from the lowest",
        &HOLED,
        &[3, 7],
        Ask::New(2, 2),
        Want::At(&[(3, 1), (7, 0), (3, 3), (7, 2)]),
    ),
    (
        "more than the holes",
        &HOLED,
        &[3, 7],
        Ask::New(3, 2),
        Want::NoRoom(4),
    ),
    (
        "second copies in the holes",
        &HOLED,
        &[3, 7],
        Ask::More(2),
        Want::At(&[(3, 0), (7, 0), (7, 1), (3, 1), (3, 2), (7, 2)]),
    ),
    (
        "the order is that of the members",
        &TURNED,
        &[3, 7],
        Ask::New(2, 1),
        Want::At(&[(7, 0), (7, 2)]),
    ),
    (
        "a missing disk takes nothing",
        &HOLED,
        &[7],
        Ask::New(2, 1),
        Want::At(&[(7, 0), (7, 2)]),
    ),
    (
        "two copies on one disk",
        &HOLED,
        &[7],
        Ask::New(1, 2),
        Want::NoRoom(2),
    ),
    (
        "a second copy on one disk",
        &HOLED,
        &[7],
        Ask::More(2),
        Want::NoRoom(2),
    ),
    (
        "a spare takes nothing",
        &SPARED,
        &[3, 7, 9],
        Ask::New(1, 2),
        Want::At(&[(7, 0), (9, 0)]),
    ),
    (
        "more than beside a spare",
        &SPARED,
        &[3, 7, 9],
        Ask::New(2, 2),
        Want::NoRoom(3),
    ),
    ("no disk", &HOLED, &[], Ask::New(1, 1), Want::NoRoom(0)),
];

fn set_of(rt: &impl Abort, disks: &[u16]) -> DiskSet {
    let mut set = DiskSet::empty();
    for disk in disks {
        let there = *disk < 128;
        check(rt, there, "there");
        set = set.with(*disk);
    }
    set
}

fn first_fit(
    rt: &(impl Abort + AllocGlobal),
    d: &Descriptor,
    usable: DiskSet,
    lps: u32,
    copies: u8,
) -> Map {
    let valid = d.is_valid();
    check(rt, valid, "valid");
    allocate(rt.alloc(), d, usable, lps, copies)
}

// More copies of the first volume.
fn further(rt: &(impl Abort + AllocGlobal), d: &Descriptor, usable: DiskSet, copies: u8) -> Map {
    let valid = d.is_valid();
    check(rt, valid, "valid");
    let first = d.lvs.as_slice().first();
    let fewer = first.is_some_and(|row| row.copies < copies);
    check(rt, fewer, "fewer");
    let number = first.map_or(0, |row| row.number);
    allocate_more(rt.alloc(), d, usable, number, copies)
}

fn answered(rt: &(impl Abort + AllocGlobal), of: &Group, usable: &[u16], ask: &Ask) -> Map {
    let d = group(rt.alloc(), of.0, of.1).expect(rt, "a group");
    match ask {
        Ask::New(lps, copies) => first_fit(rt, &d, set_of(rt, usable), *lps, *copies),
        Ask::More(copies) => further(rt, &d, set_of(rt, usable), *copies),
    }
}

fn is_at(map: &Rows<Pp>, places: &[(u16, u16)]) -> bool {
    map.len() == places.len()
        && map
            .as_slice()
            .iter()
            .zip(places)
            .all(|(pp, (disk, k))| pp.disk == *disk && pp.pp == *k)
}

fn is_as(map: &Map, want: &Want) -> bool {
    match (map, want) {
        (Ok(map), Want::At(places)) => is_at(map, places),
        (Err(MapFault::NoRoom { free }), Want::NoRoom(count)) => free == count,
        _ => false,
    }
}

#[test]
fn the_first_partitions_that_fit_are_taken(rt: HostRuntime) {
    for (what, of, usable, ask, want) in &FITS {
        let map = answered(&rt, of, usable, ask);
        check(&rt, is_as(&map, want), what);
    }
}

const MIRRORED: Volume = (4, "a", 2, 2, &[(0, 5), (1, 0), (1, 1), (2, 3)]);

// the number of the volume, the copy, the block, the disk and the sector at which it stands
static PLACES: [(u16, u8, u64, Option<(u16, u64)>); 8] = [
    (4, 1, 0, Some((0, 14_336))),
    (4, 2, 2047, Some((1, 6_143))),
    (4, 1, 2048, Some((1, 6_144))),
    (4, 2, 4095, Some((2, 12_287))),
    (4, 2, 4096, None),
    (4, 3, 0, None),
    (4, 0, 0, None),
    (3, 1, 0, None),
];

fn sector(rt: &impl Abort, d: &Descriptor, lv: u16, copy: u8, block: u64) -> Option<(u16, u64)> {
    let valid = d.is_valid();
    check(rt, valid, "valid");
    place(d, lv, copy, block).map(|place: Place| (place.disk, place.sector))
}

fn blocks_of(rt: &impl Abort, d: &Descriptor, lv: u16) -> Option<u64> {
    let valid = d.is_valid();
    check(rt, valid, "valid");
    blocks(d, lv)
}

#[test]
fn a_block_has_a_sector_on_each_copy(rt: HostRuntime) {
    let d = group(rt.alloc(), &MEMBERS, &[MIRRORED]).expect(&rt, "a group");
    for (lv, copy, block, want) in &PLACES {
        check(&rt, sector(&rt, &d, *lv, *copy, *block) == *want, "a place");
    }
    check(&rt, blocks_of(&rt, &d, 4) == Some(4096), "blocks");
    check(&rt, blocks_of(&rt, &d, 3).is_none(), "no volume");
}
