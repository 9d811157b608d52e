use crate::tests::fixtures::{check, check_at};
use lvm_fields::Fault;
use lvm_num::{Rows, Status, StatusRow, VolumeNumbers};
use lvm_vgsa::{decode, encode, encode_into};
use std::process::Abort;

// A status by whether its group is big, by its rows, which are of the first disks, and by its dirty volumes.
type Form = (bool, u16, &'static [u16]);

const SMALL: Form = (false, 2, &[]);

const BIG: Form = (true, 2, &[]);

const SMALL_DIRTY: Form = (false, 2, &[5, 511]);

const BIG_DIRTY: Form = (true, 2, &[5, 511]);

const MANY_DIRTY: Form = (true, 33, &[5]);

// The first disk has partition 9 stale, and the second one is missing.
fn rows_of(rt: &(impl Abort + AllocGlobal), disks: u16) -> Rows<StatusRow> {
    let mut rows = Vec::new(rt.alloc());
    for disk in 0..disks {
        let mut stale = [0; 127];
        if disk == 0 {
            stale[1] = 2;
        }
        let missing = disk == 1;
        rows.push(StatusRow {
            disk,
            missing,
            stale,
        })
        .expect(rt, "memory");
    }
    Rows::new(rows)
}

fn status_of(rt: &(impl Abort + AllocGlobal), big: bool, disks: u16, dirty: &[u16]) -> Status {
    Status {
        id: 50,
        big,
        dirty: VolumeNumbers::new(rt.alloc(), dirty).expect(rt, "memory"),
        rows: rows_of(rt, disks),
    }
}

fn encoded(rt: &(impl Abort + AllocGlobal), status: &Status) -> Rows<u8> {
    let valid = status.is_valid();
    check(rt, valid, "valid");
    encode(rt.alloc(), status).expect(rt, "memory")
}

fn bytes_of(rt: &(impl Abort + AllocGlobal), form: &Form) -> Rows<u8> {
    let (big, disks, dirty) = *form;
    encoded(rt, &status_of(rt, big, disks, dirty))
}

// what, the status, how many bytes it has, the first and the last ones
static BYTES: [(&str, &Form, usize, &[u8], &[u8]); 3] = [
    (
        "small",
        &SMALL,
        280,
        b"VGS1\0\0\0\0\0\0\0\x32\0\x02\0\0",
        &[0; 128],
    ),
    (
        "big",
        &BIG,
        280,
        b"VGS2\0\0\0\0\0\0\0\x32\0\x02\0\0",
        &[0; 128],
    ),
    (
        "dirty",
        &BIG_DIRTY,
        286,
        b"VGS3\0\0\0\0\0\0\0\x32\0\x02\0\x01",
        &[0, 0, 0, 2, 0, 5, 1, 255],
    ),
];

#[test]
fn each_version_has_its_head_and_its_end(rt: HostRuntime) {
    for (what, form, len, first, last) in &BYTES {
        let bytes = bytes_of(&rt, form);
        let ends = bytes.as_slice().starts_with(first) && bytes.as_slice().ends_with(last);
        check(&rt, bytes.len() == *len && ends, what);
    }
}

#[test]
fn a_row_has_its_disk_and_its_marks(rt: HostRuntime) {
    let bytes = bytes_of(&rt, &SMALL);
    assert_eq!(rt; bytes.len(), 280);
    let rows = &bytes.as_slice()[16..];
    check(&rt, rows.starts_with(&[0, 0, 0, 0, 0, 2]), "the first row");
    check(
        &rt,
        (&rows[132..]).starts_with(&[0, 1, 1, 0, 0, 0]),
        "the second",
    );
}

// Where the status ends once it is written over the first of these bytes.
fn written(rt: &(impl Abort + AllocGlobal), status: &Status, into: &mut [u8]) -> usize {
    let valid = status.is_valid();
    check(rt, valid, "valid");
    let bytes = encode(rt.alloc(), status).expect(rt, "memory");
    let fits = bytes.len() <= into.len();
    check(rt, fits, "fits");
    encode_into(status, into)
}

#[test]
fn what_follows_stays(rt: HostRuntime) {
    let status = status_of(&rt, false, 1, &[]);
    let bytes = encoded(&rt, &status);
    let mut into = [0xa5; 150];
    check(&rt, written(&rt, &status, &mut into) == 148, "the end");
    check(&rt, into.starts_with(bytes.as_slice()), "the status");
    check(&rt, into.ends_with(&[0xa5, 0xa5]), "what follows");
}

// How many bytes the status has, where it is read of them again.
fn read_again(
    rt: &(impl Abort + AllocGlobal),
    big: bool,
    disks: u16,
    dirty: &[u16],
) -> Option<usize> {
    let status = status_of(rt, big, disks, dirty);
    let bytes = encoded(rt, &status);
    let read = decode(rt.alloc(), bytes.as_slice()).expect(rt, "a status");
    (read == status).then_some(bytes.len())
}

// whether it is big, how many rows, and how many bytes, without dirty volumes and with all
static LARGEST: [(bool, u16, usize, usize); 4] = [
    (false, 2, 280, 1_304),
    (true, 2, 280, 1_304),
    (false, 32, 4_240, 5_264),
    (true, 128, 16_912, 17_936),
];

#[test]
fn the_largest_of_each_version_round_trips(rt: HostRuntime) {
    let mut all = Vec::new(rt.alloc());
    for lv in 1..512 {
        all.push(lv).expect(&rt, "memory");
    }
    for (big, disks, clean, dirty) in &LARGEST {
        let was = [
            read_again(&rt, *big, *disks, &[]),
            read_again(&rt, *big, *disks, &all),
        ];
        check(&rt, was == [Some(*clean), Some(*dirty)], "bytes");
    }
}

// The place of the first fault.
fn fault_in(rt: &(impl Abort + AllocGlobal), bytes: &[u8]) -> Option<usize> {
    match decode(rt.alloc(), bytes) {
        Err(Fault::At(place)) => Some(place),
        _ => None,
    }
}

// the bytes of this status, these put over them at this place, the place of the first fault
static FAULTS: [(&Form, usize, &[u8], usize); 28] = [
    (&SMALL, 0, &[0], 0),
    (&SMALL, 3, b"0", 0),
    (&SMALL, 3, b"4", 0),
    (&SMALL, 11, &[0], 4),
    (&SMALL, 12, &[0, 0], 12),
    (&SMALL, 12, &[0, 33], 12),
    (&SMALL, 15, &[1], 14),
    (&BIG, 12, &[0, 129], 12),
    (&BIG, 15, &[1], 14),
    (&MANY_DIRTY, 12, &[0, 129], 12),
    (&MANY_DIRTY, 15, &[2], 14),
    // more rows than a group has that isn't big
    (&MANY_DIRTY, 15, &[0], 14),
    (&MANY_DIRTY, 3, b"1", 12),
    (&SMALL, 16, &[0, 128], 16),
    (&SMALL, 18, &[2], 18),
    (&SMALL, 19, &[1], 19),
    (&SMALL, 147, &[1], 147),
    // the first disk again, and one before it
    (&SMALL, 148, &[0, 0], 148),
    (&SMALL, 16, &[0, 2], 148),
    (&SMALL, 150, &[255], 150),
    (&SMALL, 151, &[128], 151),
    (&SMALL, 279, &[1], 279),
    (&SMALL_DIRTY, 280, &[0, 0], 280),
    (&SMALL_DIRTY, 280, &[2, 0], 280),
    (&SMALL_DIRTY, 282, &[0, 0], 282),
    (&SMALL_DIRTY, 284, &[2, 0], 284),
    (&SMALL_DIRTY, 284, &[0, 5], 284),
    (&SMALL_DIRTY, 284, &[0, 4], 284),
];

// The place of the first fault once these bytes stand at this offset.
fn fault_with(
    rt: &(impl Abort + AllocGlobal),
    form: &Form,
    at: usize,
    put: &[u8],
) -> Option<usize> {
    let mut bytes = bytes_of(rt, form).into_vec();
    for (k, byte) in put.iter().enumerate() {
        *bytes.get_mut(at.wrapping_add(k)).expect(rt, "a byte") = *byte;
    }
    fault_in(rt, &bytes)
}

#[test]
fn each_rule_is_refused_at_its_place(rt: HostRuntime) {
    for (form, at, put, place) in &FAULTS {
        check_at(
            &rt,
            fault_with(&rt, form, *at, put) == Some(*place),
            "byte",
            *at,
        );
    }
}

#[test]
fn all_of_the_bytes_are_needed_and_none_more(rt: HostRuntime) {
    let mut bytes = bytes_of(&rt, &BIG_DIRTY).into_vec();
    for len in 0..286 {
        let front = bytes.get(..len).expect(&rt, "bytes");
        check_at(&rt, fault_in(&rt, front) == Some(len), "bytes", len);
    }
    check(&rt, fault_in(&rt, &bytes).is_none(), "all");
    bytes.extend_from_slice(&[0, 0]).expect(&rt, "memory");
    check(&rt, fault_in(&rt, &bytes) == Some(286), "two bytes more");
}

#[test]
fn a_byte_more_is_refused_without_dirty_volumes(rt: HostRuntime) {
    let mut bytes = bytes_of(&rt, &SMALL).into_vec();
    bytes.push(0).expect(&rt, "memory");
    check(&rt, fault_in(&rt, &bytes) == Some(280), "a byte more");
}
