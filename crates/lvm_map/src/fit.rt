//! First fit.
ghost use Rattle.std.specs.Prelude.{◌<◌, ◌^◌, length, All, IsSome, IfSome, IfOk, IfErr, IsTrue};
ghost use Rattle.lvm_num.specs.Descriptor.{IsValid, partitions_used, volume_of};
ghost use Rattle.lvm_num.specs.Disks.{has};
ghost use Rattle.lvm_map.specs.FirstFit.{is_among, IsAllocated, IsFault, new_volume, more_copies};
ghost use Rattle.lvm_map.specs.FreePartitions.{TakesNext};

use crate::free_partitions::FreePartitions;
use lvm_num::{Descriptor, DiskSet, Pp, Rows, volume_among};
use std::alloc::Global;

/// Why there is no map.
#[derive(Clone, Copy)]
pub enum MapFault {
    /// First fit finds no place for one of the copies. It carries how many partitions of the usable
    /// members that are no spares no volume uses.
    NoRoom { free: u32 },
    /// Want of memory: a growth was refused.
    Memory,
}

/// The map of a new volume: for each logical partition in order and each of its copies in order the
/// first member, in the descriptor's order, that is usable, is no spare, holds no other copy of the
/// logical partition and has a free partition, and there the lowest free one. This is the project's
/// own rule.
pub fn allocate(
    alloc: Global,
    d: &Descriptor,
    usable: DiskSet,
    lps: u32,
    copies: u8,
) -> Result<Rows<Pp>, MapFault>
    requires { IsValid d.now }
    ensures map { IfOk result (IsAllocated d.now (has usable) (new_volume lps copies)) }
    ensures fault { IfErr result (IsFault d.now (has usable) (new_volume lps copies)) }
{
    fit(alloc, d, usable, lps, copies, 0, &[])
}

/// The whole map of a volume that is to have so many copies: those that it has keep their places, and
/// the further ones are put as `allocate` puts copies.
pub fn allocate_more(
    alloc: Global,
    d: &Descriptor,
    usable: DiskSet,
    lv: u16,
    copies: u8,
) -> Result<Rows<Pp>, MapFault>
    requires valid { IsValid d.now }
    requires there { IsSome (volume_of d.now lv) }
    requires more { IfSome (volume_of d.now lv) (λ row. row.copies < copies) }
    ensures map { IfOk result (λ pps. IfSome (volume_of d.now lv) (λ row. IsAllocated d.now (has usable) (more_copies row copies) pps)) }
    ensures fault { IfErr result (λ fault. IfSome (volume_of d.now lv) (λ row. IsFault d.now (has usable) (more_copies row copies) fault)) }
{
    match volume_among(d.lvs.as_slice(), lv) {
        Some(row) => {
            let old = row.map.as_slice();
            fit(alloc, d, usable, row.lps, copies, row.copies, old)
        }
        None => unreachable!(),
    }
}

// The map by first fit in which each logical partition keeps as many copies as it has in the old one.
fn fit(
    alloc: Global,
    d: &Descriptor,
    usable: DiskSet,
    lps: u32,
    copies: u8,
    kept: u8,
    old: &[Pp],
) -> Result<Rows<Pp>, MapFault>
    requires valid { IsValid d.now }
    requires used { All (λ pp. IsTrue (is_among (partitions_used d.now) pp)) old.now }
    ensures map { IfOk result (IsAllocated d.now (has usable) (record { lps = lps; copies = copies; kept = kept; old = old.now })) }
    ensures fault { IfErr result (IsFault d.now (has usable) (record { lps = lps; copies = copies; kept = kept; old = old.now })) }
{
    let Ok(mut room) = FreePartitions::of(alloc, d, usable) else {
        return Err(MapFault::Memory);
    };
    let free = room.free();
    let mut map = Vec::new(alloc);
    let size = lps as usize * usize::from(copies);
    while map.len() < size {
        let Some(pp) = next(&mut room, copies, kept, old, &map) else {
            return Err(MapFault::NoRoom { free });
        };
        if map.push(pp).is_err() {
            return Err(MapFault::Memory);
        }
    }
    Ok(Rows::new(map))
}

// What comes behind the front of a map: the copy that is kept, or the first place that is free.
fn next(room: &mut FreePartitions, copies: u8, kept: u8, old: &[Pp], front: &[Pp]) -> Option<Pp>
    requires copies { 0 < copies }
    requires size { length front.now < 2 ^ 40 }
    ensures { TakesNext (record { lps = 0; copies = copies; kept = kept; old = old.now }) front.now room.old room.new result }
{
    let copies = usize::from(copies);
    let kept = usize::from(kept);
    let copy = front.len() % copies;
    if copy < kept {
        old.get(front.len() / copies * kept + copy).copied()
    } else {
        room.take(&front[front.len() - copy..])
    }
}
