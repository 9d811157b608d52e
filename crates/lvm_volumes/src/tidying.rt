//! Dirty marks that aren't needed any more go.
ghost use Rattle.std.specs.Prelude.{◌≡◌, ◌↔◌, All, IsTrue};
ghost use Rattle.lvm_num.specs.Descriptor.{IsLaidOut, IsValid};
ghost use Rattle.lvm_num.specs.Status.{IsVolumeNumber};
ghost use Rattle.lvm_volume_plan.specs.passed.Core.{state_of, Leaves, IsSettled, HasSpareNumbers};
ghost use Rattle.lvm_volumes.specs.Tidying.{lacks_usable, needs_mark, unneeded, TidyGives, to_tidy};

use arrayvec::ArrayVec;
use lvm_disk::Shelf;
use lvm_num::{Descriptor, LvRow};
use lvm_status::StaleTable;
use lvm_transfer::Patience;
use lvm_volume_plan::below::{CommandDriver, CommitFault};
use lvm_volume_plan::{copies_at, has_usable, is_passive};

// The sequence numbers that have to be left for a status, without those of members that become missing by it.
const NUMBERS: u32 = 8;

/// Commits a status in which, of the volumes that were dirty, those in mode passive stay so that have a logical
/// partition without a usable copy, and no others. Where nothing changes by it, or too few sequence numbers are left,
/// nothing is written. It takes no memory.
///
/// # Errors
///
/// `WentOff`, `Dark` and `Stuck`, as of `CommandDriver::mark_dirty`.
pub fn tidy<S: Shelf>(
    driver: &mut CommandDriver<S>,
    patience: &mut Patience,
) -> Result<(), CommitFault>
    requires settled { IsSettled driver.old.1 }
    ensures gives { TidyGives patience.old.left (state_of S.device driver.old) (state_of S.device driver.new) result }
    // whatever the answer
    ensures leaves { Leaves (to_tidy driver.old.1) patience.old.left patience.new.left (state_of S.device driver.old) (state_of S.device driver.new) }
{
    if !has_spare_numbers(driver) {
        return Ok(());
    }
    let clean = unneeded(driver.descriptor(), driver.table());
    driver.mark_dirty(&[], clean.as_slice(), patience)
}

// Whether so many sequence numbers are left, and two more for each member that isn't missing.
fn has_spare_numbers<S: Shelf>(driver: &CommandDriver<S>) -> bool
    requires settled { IsSettled driver.now.1 }
    ensures { IsTrue result ↔ HasSpareNumbers driver.now.1 }
{
    let _ = driver.open();
    let mut needed = NUMBERS;
    for row in driver.descriptor().pvs.as_slice() {
        if !driver.table().is_missing(row.disk) {
            needed += 2;
        }
    }
    driver.numbers_left() >= needed
}

// The volumes that are dirty and needn't be.
fn unneeded(group: &Descriptor, table: &StaleTable) -> ArrayVec<u16, 511>
    requires valid { IsValid group.now }
    ensures is { result.items ≡ unneeded group.now table.now }
    ensures numbers { All IsVolumeNumber result.items }
{
    let mut found = ArrayVec::new();
    for number in table.as_status().dirty.as_slice() {
        if !needs_mark(group.lvs.as_slice(), table, *number) {
            found.push(*number);
        }
    }
    found
}

// Whether the volume of this number is in mode passive, and lacks a copy that can be used.
fn needs_mark(volumes: &[LvRow], table: &StaleTable, number: u16) -> bool
    requires { All IsLaidOut volumes.now }
    ensures { result ≡ needs_mark volumes.now table.now number }
{
    for row in volumes {
        if row.number == number && is_passive(row.mode) && lacks_usable(table, row) {
            return true;
        }
    }
    false
}

// Whether a logical partition of the volume has no copy that can be used.
fn lacks_usable(table: &StaleTable, row: &LvRow) -> bool
    requires { IsLaidOut row.now }
    ensures { result ≡ lacks_usable table.now row.now }
{
    for lp in 0..row.lps {
        if !has_usable(table, copies_at(row.map.as_slice(), row.copies, lp)) {
            return true;
        }
    }
    false
}
