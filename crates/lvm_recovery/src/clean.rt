//! Which volumes stay dirty once the usable copies of all are equal.
ghost use Rattle.std.specs.Prelude.{◌≡◌, ◌<◌, filter, IfOk, All};
ghost use Rattle.lvm_num.specs.Descriptor.{IsLaidOut, IsValid};
ghost use Rattle.lvm_num.specs.Disks.{has};
ghost use Rattle.lvm_recovery.specs.Clean.{lacks_usable, is_left, is_still_dirty, any_still_dirty};

use crate::dirty::{first_usable, pps_at};
use lvm_num::{Descriptor, DiskSet, LvRow, Memory, Mode, VolumeNumbers};
use lvm_status::StaleTable;
use std::alloc::Global;

/// Of these numbers those of volumes in mode passive that have a logical partition without a usable copy.
pub fn still_dirty(
    alloc: Global,
    group: &Descriptor,
    table: &StaleTable,
    disks: DiskSet,
    dirty: &[u16],
) -> Result<VolumeNumbers, Memory>
    requires { IsValid group.now }
    ensures { IfOk result (λ numbers. numbers ≡ filter (is_still_dirty group.now table.now (has disks)) dirty.now) }
{
    let mut numbers = Vec::new(alloc);
    for number in dirty {
        if is_still_dirty(group, *number, table, disks) && numbers.push(*number).is_err() {
            return Err(Memory);
        }
    }
    VolumeNumbers::new(alloc, numbers.as_slice())
}

// Whether the group has such a volume of this number.
fn is_still_dirty(group: &Descriptor, number: u16, table: &StaleTable, disks: DiskSet) -> bool
    requires { IsValid group.now }
    ensures { result ≡ is_still_dirty group.now table.now (has disks) number }
{
    any_still_dirty(group.lvs.as_slice(), number, table, disks)
}

fn any_still_dirty(rows: &[LvRow], number: u16, table: &StaleTable, disks: DiskSet) -> bool
    requires laid_out { All IsLaidOut rows.now }
    requires places { All (λ row. All (λ p. p.disk < 128) row.map) rows.now }
    ensures { result ≡ any_still_dirty table.now (has disks) number rows.now }
{
    for row in rows {
        if is_left(row, number, table, disks) {
            return true;
        }
    }
    false
}

fn is_left(row: &LvRow, number: u16, table: &StaleTable, disks: DiskSet) -> bool
    requires laid_out { IsLaidOut row.now }
    requires places { All (λ p. p.disk < 128) row.now.map }
    ensures { result ≡ is_left table.now (has disks) number row.now }
{
    row.number == number && row.mode == Mode::Passive && lacks_usable(row, table, disks)
}

// Whether a logical partition of the volume has no usable copy.
fn lacks_usable(row: &LvRow, table: &StaleTable, disks: DiskSet) -> bool
    requires laid_out { IsLaidOut row.now }
    requires places { All (λ p. p.disk < 128) row.now.map }
    ensures { result ≡ lacks_usable table.now (has disks) row.now row.now.lps }
{
    for lp in 0..row.lps {
        match first_usable(pps_at(row, u64::from(lp)), table, disks) {
            Some(_) => {}
            None => return true,
        }
    }
    false
}
