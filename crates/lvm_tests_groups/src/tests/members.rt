//! Groups of the first disks of a shelf. What is made is None where memory runs out.
use lvm_num::{
    Descriptor, DiskSet, LvRow, Mode, Name, Policy, Pp, PvRow, Rows, Stamp, Status, StatusRow,
    VolumeNumbers,
};
use lvm_rec::Homes;
use std::alloc::Global;

/// A stamp of this epoch and number.
pub fn stamp(epoch: u64, seq: u32) -> Stamp {
    Stamp { epoch, seq }
}

/// Members of one partition each, of which the first may be a spare.
pub fn members(alloc: Global, count: u16, first_is_spare: bool) -> Option<Rows<PvRow>> {
    let mut pvs = Vec::new(alloc);
    for disk in 0..count {
        let spare = disk == 0 && first_is_spare;
        let row = PvRow {
            disk,
            pps: 1,
            spare,
        };
        pvs.push(row).ok()?;
    }
    Some(Rows::new(pvs))
}

/// The group `datavg` of the first disks, with one partition of 1 MiB each, and without volumes.
pub fn group(alloc: Global, id: u64, count: u16) -> Option<Descriptor> {
    let mut group = lvm_tests_values::group(alloc, &[], &[])?;
    group.id = id;
    group.pvs = members(alloc, count, false)?;
    Some(group)
}

/// The volume `lv00` of one logical partition in this mode, of which these are the copies.
pub fn volume(alloc: Global, mode: Mode, copies: [Pp; 2]) -> Option<Rows<LvRow>> {
    let name = Name::read(b"lv00")?;
    let map = Vec::from_slice(alloc, &copies).ok()?;
    let row = LvRow {
        number: 1,
        name,
        mode,
        policy: Policy::Parallel,
        copies: 2,
        lps: 1,
        map: Rows::new(map),
    };
    let mut rows = Vec::new(alloc);
    rows.push(row).ok()?;
    Some(Rows::new(rows))
}

fn status_rows(alloc: Global, count: u16, missing: bool) -> Option<Rows<StatusRow>> {
    let mut rows = Vec::new(alloc);
    for disk in 0..count {
        let row = StatusRow {
            disk,
            missing,
            stale: [0; 127],
        };
        rows.push(row).ok()?;
    }
    Some(Rows::new(rows))
}

/// A status of the first disks, of which nothing is stale, and all are missing or none is.
pub fn status(alloc: Global, id: u64, count: u16, missing: bool) -> Option<Status> {
    let rows = status_rows(alloc, count, missing)?;
    let dirty = VolumeNumbers::empty(alloc).ok()?;
    Some(Status {
        id,
        big: false,
        dirty,
        rows,
    })
}

/// The slots of blank disks.
pub fn first_homes() -> Homes {
    Homes {
        descriptor: DiskSet::empty(),
        status: DiskSet::empty(),
    }
}
