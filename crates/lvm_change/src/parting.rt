//! Members that a record didn't reach are missing from then on.
ghost use Rattle.std.specs.Prelude.{◌≡◌, ℕ, None, IsTrue};
ghost use Rattle.std.specs.List.{list_any};
ghost use Rattle.lvm_num.specs.declared.descriptor.PvRow.{PvRow};
ghost use Rattle.lvm_num.specs.Descriptor.{IsValid, is_member};
ghost use Rattle.lvm_num.specs.Disks.{has};
ghost use Rattle.lvm_status.specs.Members.{HasItsRows};
ghost use Rattle.lvm_commit.specs.Settling.{IsOf};
ghost use Rattle.lvm_commit.specs.Rounds.{HasLost, HasMarked};
ghost use Rattle.lvm_change.specs.Parting.{PartsWith};

use lvm_num::{Descriptor, DiskSet};
use lvm_status::{Change, Updater};

/// These members are wanted missing, and the copies that they leave behind stale, of whose logical partition another copy is usable.
pub fn part_with(d: &Descriptor, updater: &mut Updater, lost: DiskSet)
    requires valid { IsValid d.now }
    requires own { IsOf d.now updater.old }
    requires idle { updater.old.in_flight ≡ None }
    requires rows { HasItsRows updater.old.group updater.old.wanted }
    requires members { (disk : ℕ) → IsTrue (has lost disk) → IsTrue (is_member d.now disk) }
    ensures { PartsWith d.now (has lost) updater.old updater.new }
{
    lose(d, updater, lost);
    mark_left(d, updater, lost);
}

// These members are wanted missing.
fn lose(d: &Descriptor, updater: &mut Updater, lost: DiskSet)
    requires valid { IsValid d.now }
    requires own { IsOf d.now updater.old }
    requires idle { updater.old.in_flight ≡ None }
    requires rows { HasItsRows updater.old.group updater.old.wanted }
    requires members { (disk : ℕ) → IsTrue (has lost disk) → IsTrue (is_member d.now disk) }
    ensures { HasLost (has lost) updater.old updater.new }
{
    for row in d.pvs.as_slice() {
        if lost.has(row.disk) {
            updater.want(Change::Missing(row.disk));
        }
    }
}

// Where a member is one of these disks, the copies of the group's volumes that are left behind are wanted stale.
fn mark_left(d: &Descriptor, updater: &mut Updater, lost: DiskSet)
    requires valid { IsValid d.now }
    requires own { IsOf d.now updater.old }
    requires rows { HasItsRows updater.old.group updater.old.wanted }
    ensures { HasMarked d.now (has lost) updater.old updater.new }
{
    if is_any_of(d, lost) {
        updater.mark_left(d.lvs.as_slice());
    }
}

// Whether a member is one of these disks.
fn is_any_of(d: &Descriptor, disks: DiskSet) -> bool
    requires { IsValid d.now }
    ensures { result ≡ list_any (λ (row : PvRow). has disks row.disk) d.now.pvs }
{
    d.pvs.as_slice().iter().any(|row| disks.has(row.disk))
}
