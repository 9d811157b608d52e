//! Clones of descriptors, of volumes and of statuses, which take memory.
ghost use Rattle.std.specs.Prelude.{◌≡◌, IfOk};

use crate::{Descriptor, LvRow, Memory, Rows, Status, VolumeNumbers};
use std::alloc::Global;

/// The group with these volumes.
pub fn with_volumes(
    alloc: Global,
    group: &Descriptor,
    lvs: Rows<LvRow>,
) -> Result<Descriptor, Memory>
    ensures { IfOk result (λ next. next ≡ record group.now { lvs = lvs }) }
{
    let pvs = Vec::from_slice(alloc, group.pvs.as_slice())?;
    Ok(Descriptor {
        id: group.id,
        name: group.name,
        mib: group.mib,
        quorum: group.quorum,
        even: group.even,
        big: group.big,
        pvs: Rows::new(pvs),
        lvs,
    })
}

/// A descriptor that says the same.
pub fn clone_descriptor(alloc: Global, group: &Descriptor) -> Result<Descriptor, Memory>
    ensures { IfOk result (λ clone. clone ≡ group.now) }
{
    let lvs = clone_volumes(alloc, group.lvs.as_slice())?;
    with_volumes(alloc, group, Rows::new(lvs))
}

/// Volumes that say the same.
pub fn clone_volumes(alloc: Global, volumes: &[LvRow]) -> Result<Vec<LvRow>, Memory>
    ensures { IfOk result (λ clones. clones.items ≡ volumes.now) }
{
    let mut clones = Vec::new(alloc);
    for volume in volumes {
        clones.push(clone_volume(alloc, volume)?)?;
    }
    Ok(clones)
}

/// A volume that says the same.
pub fn clone_volume(alloc: Global, volume: &LvRow) -> Result<LvRow, Memory>
    ensures { IfOk result (λ clone. clone ≡ volume.now) }
{
    match Vec::from_slice(alloc, volume.map.as_slice()) {
        Ok(map) => Ok(LvRow {
            number: volume.number,
            name: volume.name,
            copies: volume.copies,
            mode: volume.mode,
            policy: volume.policy,
            lps: volume.lps,
            map: Rows::new(map),
        }),
        Err(_) => Err(Memory),
    }
}

/// A status that says the same, with all its room for numbers.
pub fn clone_status(alloc: Global, status: &Status) -> Result<Status, Memory>
    ensures { IfOk result (λ clone. clone ≡ status.now) }
{
    let dirty = VolumeNumbers::new(alloc, status.dirty.as_slice())?;
    match Vec::from_slice(alloc, status.rows.as_slice()) {
        Ok(rows) => Ok(Status {
            id: status.id,
            big: status.big,
            dirty,
            rows: Rows::new(rows),
        }),
        Err(_) => Err(Memory),
    }
}
