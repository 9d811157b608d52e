//! Where the blocks of volumes stand.
ghost use Rattle.std.specs.Prelude.{◌≡◌, ◌≤◌, ◌==◌, ◌↔◌, IsSome};
ghost use Rattle.lvm_num.specs.declared.descriptor.LvRow.{LvRow};
ghost use Rattle.lvm_num.specs.Descriptor.{IsLaidOut, IsValid};
ghost use Rattle.lvm_map.specs.Places.{blocks_of, copy_at, place_on, place_of, IsBlockOfCopy};
ghost use Rattle.lvm_num.specs.Geometry.{partition_blocks};

use lvm_num::{DATA_START, Descriptor, LvRow, MIB_BLOCKS, Place, Pp, volume_among};

/// How many blocks of 512 bytes a volume has; None without a volume of that number.
pub fn blocks(d: &Descriptor, lv: u16) -> Option<u64>
    requires { IsValid d.now }
    ensures { result ≡ blocks_of d.now lv }
{
    let row = volume_among(d.lvs.as_slice(), lv)?;
    Some(partition_blocks(d.mib) * u64::from(row.lps))
}

/// The sector at which a block of a volume, counted from 0, stands on a copy, counted from 1; None
/// where there is no such volume, copy or block.
pub fn place(d: &Descriptor, lv: u16, copy: u8, block: u64) -> Option<Place>
    requires { IsValid d.now }
    ensures place { result ≡ place_of d.now lv copy block }
    ensures there { IsSome result ↔ IsBlockOfCopy d.now lv copy block }
{
    let row = volume_among(d.lvs.as_slice(), lv)?;
    let pp = copy_at(row, block / partition_blocks(d.mib), copy)?;
    Some(place_on(d.mib, pp, block))
}

// The partition that a copy, from 1, of a logical partition is.
fn copy_at(row: &LvRow, lp: u64, copy: u8) -> Option<Pp>
    requires { IsLaidOut row.now }
    ensures { result ≡ copy_at row.now lp copy }
{
    if copy == 0 || copy > row.copies || lp >= u64::from(row.lps) {
        return None;
    }
    let first = lp as usize * usize::from(row.copies);
    Some(row.map.as_slice()[first + usize::from(copy - 1)])
}

// The sector of a block whose copy is this partition.
fn place_on(mib: u16, pp: Pp, block: u64) -> Place
    requires { 1 ≤ mib }
    ensures { result ≡ place_on mib pp block }
{
    let size = partition_blocks(mib);
    Place {
        disk: pp.disk,
        sector: DATA_START + size * u64::from(pp.pp) + block % size,
    }
}

// The blocks of a partition of so many MiB.
fn partition_blocks(mib: u16) -> u64
    ensures { result ≡ partition_blocks mib }
{
    MIB_BLOCKS * u64::from(mib)
}
