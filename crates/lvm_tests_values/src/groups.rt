//! A group and its status, of rows. Each is None where memory runs out or a name isn't one.
use lvm_num::{
    Descriptor, LvRow, Mode, Name, Policy, Pp, PvRow, Rows, Status, StatusRow, VolumeNumbers,
};
use lvm_status::StaleTable;
use std::alloc::Global;

/// A member by its disk, its partitions and whether it is a spare.
pub type Member = (u16, u16, bool);

/// A volume by its number, its name, its copies, its logical partitions and their map.
pub type Volume = (u16, &'static str, u8, u32, &'static [(u16, u16)]);

/// The members of a group.
pub fn members(alloc: Global, rows: &[Member]) -> Option<Rows<PvRow>> {
    let mut pvs = Vec::new(alloc);
    for (disk, pps, spare) in rows {
        let row = PvRow {
            disk: *disk,
            pps: *pps,
            spare: *spare,
        };
        pvs.push(row).ok()?;
    }
    Some(Rows::new(pvs))
}

fn map(alloc: Global, places: &[(u16, u16)]) -> Option<Rows<Pp>> {
    let mut pps = Vec::new(alloc);
    for (disk, pp) in places {
        let place = Pp {
            disk: *disk,
            pp: *pp,
        };
        pps.push(place).ok()?;
    }
    Some(Rows::new(pps))
}

/// A volume in mode active whose writes go to all copies at once.
pub fn volume(alloc: Global, of: &Volume) -> Option<LvRow> {
    let (number, text, copies, lps, places) = *of;
    let name = Name::read(text.as_bytes())?;
    let map = map(alloc, places)?;
    Some(LvRow {
        number,
        name,
        copies,
        mode: Mode::Active,
        policy: Policy::Parallel,
        lps,
        map,
    })
}

fn volumes(alloc: Global, rows: &[Volume]) -> Option<Rows<LvRow>> {
    let mut lvs = Vec::new(alloc);
    for of in rows {
        let row = volume(alloc, of)?;
        lvs.push(row).ok()?;
    }
    Some(Rows::new(lvs))
}

/// The group `datavg` with partitions of 1 MiB, and a quorum.
pub fn group(alloc: Global, pvs: &[Member], lvs: &[Volume]) -> Option<Descriptor> {
    let name = Name::read(b"datavg")?;
    let pvs = members(alloc, pvs)?;
    let lvs = volumes(alloc, lvs)?;
    Some(Descriptor {
        id: 50,
        name,
        mib: 1,
        quorum: true,
        even: false,
        big: false,
        pvs,
        lvs,
    })
}

fn status_rows(alloc: Global, disks: &[u16], marks: u8) -> Option<Rows<StatusRow>> {
    let mut rows = Vec::new(alloc);
    for disk in disks {
        let row = StatusRow {
            disk: *disk,
            missing: false,
            stale: [marks; 127],
        };
        rows.push(row).ok()?;
    }
    Some(Rows::new(rows))
}

/// A status where each of these bytes of marks is this one.
pub fn status(alloc: Global, disks: &[u16], marks: u8, dirty: &[u16]) -> Option<Status> {
    let rows = status_rows(alloc, disks, marks)?;
    let dirty = VolumeNumbers::new(alloc, dirty).ok()?;
    Some(Status {
        id: 50,
        big: false,
        dirty,
        rows,
    })
}

/// A table with rows for these disks, of which nothing is stale, and with these volumes dirty. None too where no status
/// is so.
pub fn table(alloc: Global, disks: &[u16], dirty: &[u16]) -> Option<StaleTable> {
    let status = status(alloc, disks, 0, dirty)?;
    let valid = status.is_valid();
    if !valid {
        return None;
    }
    StaleTable::from_status(alloc, &status).ok()
}
