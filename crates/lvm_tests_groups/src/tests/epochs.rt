//! Groups and statuses of two epochs.
use crate::tests::fixtures::name_of;
use crate::tests::members;
use lvm_num::{Descriptor, DiskSet, Stamp, Status};
use std::process::Abort;

pub const NONE: Stamp = Stamp { epoch: 0, seq: 0 };

pub const FIRST: Stamp = Stamp { epoch: 50, seq: 2 };

pub const LATER: Stamp = Stamp { epoch: 60, seq: 1 };

/// The group `datavg`, another of that name, and `othervg`.
pub const DATA: u64 = 7;

pub const NAMESAKE: u64 = 9;

pub const OTHER: u64 = 8;

/// One partition of 1 MiB ends with this many sectors.
pub const LARGE: u64 = 6144;

/// Which of the first disks are in the set.
pub fn first_two(disks: DiskSet) -> [bool; 2] {
    [disks.has(0), disks.has(1)]
}

/// A group of the first disks; its first member is a spare in later epochs alone.
pub fn group(rt: &(impl Abort + AllocGlobal), count: u16, id: u64, stamp: Stamp) -> Descriptor {
    let mut group = members::group(rt.alloc(), id, count).expect(rt, "a group");
    if id == OTHER {
        group.name = name_of(rt, b"othervg");
    }
    group.pvs = members::members(rt.alloc(), count, stamp.epoch > 50).expect(rt, "memory");
    group
}

/// A status of four disks, whose record has two sectors. They are missing in later epochs alone.
pub fn status(rt: &(impl Abort + AllocGlobal), id: u64, stamp: Stamp) -> Status {
    members::status(rt.alloc(), id, 4, stamp.epoch > 50).expect(rt, "memory")
}
