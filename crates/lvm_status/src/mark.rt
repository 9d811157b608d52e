//! Which copies become stale because their disks don't answer.
ghost use Rattle.std.specs.Prelude.{◌≡◌, All};
ghost use Rattle.lvm_num.specs.Descriptor.{IsLaidOut, copies_of, partitions_in};
ghost use Rattle.lvm_num.specs.Disks.{has};
ghost use Rattle.lvm_num.specs.Status.{IsValidStatus};
ghost use Rattle.lvm_status.specs.Marking.{is_served, IsLostCopy, IsLeftBelow, IsLeftIn, MarksLost, HasMark};

use crate::table::StaleTable;
use lvm_num::{DiskSet, LvRow, Pp, copies_of};

/// Marks the copies of these volumes that are left behind: those on disks that don't answer, where a copy
/// of the same logical partition is fresh on one that does.
pub fn mark_volumes(table: &mut StaleTable, volumes: &[LvRow], answering: DiskSet)
    requires valid { IsValidStatus table.old }
    requires laid_out { All IsLaidOut volumes.now }
    requires markable { All (HasMark table.old) (partitions_in volumes.now) }
    ensures { MarksLost (has answering) (IsLeftIn (has answering) table.old volumes.now) table.old table.new }
{
    for volume in volumes {
        mark_volume(table, volume, answering);
    }
}

fn mark_volume(table: &mut StaleTable, volume: &LvRow, answering: DiskSet)
    requires valid { IsValidStatus table.old }
    requires laid_out { IsLaidOut volume.now }
    requires markable { All (HasMark table.old) volume.now.map }
    ensures { MarksLost (has answering) (IsLeftBelow (has answering) table.old volume.now volume.now.lps) table.old table.new }
{
    for lp in 0..volume.lps {
        mark_copies(table, copies_of(volume, lp), answering);
    }
}

fn mark_copies(table: &mut StaleTable, copies: &[Pp], answering: DiskSet)
    requires valid { IsValidStatus table.old }
    requires markable { All (HasMark table.old) copies.now }
    ensures { MarksLost (has answering) (IsLostCopy (has answering) table.old copies.now) table.old table.new }
{
    if is_served(table, copies, answering) {
        for pp in copies {
            if !answering.has(pp.disk) {
                table.mark(*pp);
            }
        }
    }
}

// Whether one of the copies is fresh on a disk that answers.
fn is_served(table: &StaleTable, copies: &[Pp], answering: DiskSet) -> bool
    requires markable { All (HasMark table.now) copies.now }
    ensures { result ≡ is_served (has answering) table.now copies.now }
{
    for pp in copies {
        if answering.has(pp.disk) && !table.is_stale(*pp) {
            return true;
        }
    }
    false
}
