//! What the rows and the copies of a descriptor list.
ghost use Rattle.std.specs.Prelude.{◌≡◌, ◌==◌, ◌<◌};
ghost use Rattle.std.specs.List.{find, list_any};
ghost use Rattle.std.specs.Option.{option_copied};
ghost use Rattle.lvm_num.specs.declared.descriptor.LvRow.{LvRow};
ghost use Rattle.lvm_num.specs.declared.descriptor.PvRow.{PvRow};
ghost use Rattle.lvm_num.specs.declared.place.Pp.{Pp};
ghost use Rattle.lvm_num.specs.Descriptor.{IsLaidOut, copies_of, volume_of};

use crate::{Descriptor, LvRow, Pp, PvRow};

/// The volume of a number among these.
pub fn volume_among(lvs: &[LvRow], number: u16) -> Option<&LvRow>
    ensures { option_copied result ≡ find (λ (row : LvRow). row.number == number) lvs.now }
{
    lvs.iter().find(|row| row.number == number)
}

/// The volume of a number in a group.
pub fn volume_of(d: &Descriptor, number: u16) -> Option<&LvRow>
    ensures { option_copied result ≡ volume_of d.now number }
{
    volume_among(d.lvs.as_slice(), number)
}

/// Whether one of the members is on the disk.
pub fn has_member(members: &[PvRow], disk: u16) -> bool
    ensures { result ≡ list_any (λ (row : PvRow). row.disk == disk) members.now }
{
    members.iter().any(|row| row.disk == disk)
}

/// Whether one of the partitions is on the disk.
pub fn has_partition_on(pps: &[Pp], disk: u16) -> bool
    ensures { result ≡ list_any (λ (pp : Pp). pp.disk == disk) pps.now }
{
    pps.iter().any(|pp| pp.disk == disk)
}

/// The copies of a logical partition, from 0, of a volume.
pub fn copies_of(row: &LvRow, lp: u32) -> &[Pp]
    requires map { IsLaidOut row.now }
    requires there { lp < row.now.lps }
    ensures { result.now ≡ copies_of row.now lp }
{
    let copies = usize::from(row.copies);
    let first = lp as usize * copies;
    &row.map.as_slice()[first..first + copies]
}
