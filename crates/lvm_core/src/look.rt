//! What is looked up in a group.
ghost use Rattle.std.specs.Prelude.{◌≡◌, IfSome, IfNone, IsTrue, IsFalse};
ghost use Rattle.lvm_core.specs.Looking.{IsNumberOf, HasNoVolumeNamed};
ghost use Rattle.lvm_session.specs.Placed.{IsPlaced, AreAllPlaced};

use lvm_disk::Shelf;
use lvm_num::{Descriptor, Name, PvRow};
use lvm_quorum::sectors_needed;
use lvm_status::StaleTable;

/// The number of the volume of a name.
pub fn number_of(group: &Descriptor, name: Name) -> Option<u16>
    ensures some { IfSome result (IsNumberOf group.now.lvs name) }
    ensures none { IfNone result (HasNoVolumeNamed group.now.lvs name) }
{
    for row in group.lvs.as_slice() {
        if row.name == name {
            return Some(row.number);
        }
    }
    None
}

// Whether a member's disk is on the shelf, and large enough.
fn is_placed<S: Shelf>(shelf: &S, mib: u16, row: &PvRow) -> bool
    ensures yes { IsTrue result → IsPlaced (S.device shelf.now).sizes mib row.now }
    ensures no { IsFalse result → IsPlaced (S.device shelf.now).sizes mib row.now → ⊥ }
{
    row.disk < shelf.disks() && sectors_needed(mib, row.pps) <= shelf.sectors(row.disk)
}

// Whether the disks of the members that aren't missing are.
pub fn are_placed<S: Shelf>(shelf: &S, mib: u16, members: &[PvRow], table: &StaleTable) -> bool
    ensures yes { IsTrue result → AreAllPlaced (S.device shelf.now).sizes mib members.now table.now }
    ensures no { IsFalse result → AreAllPlaced (S.device shelf.now).sizes mib members.now table.now → ⊥ }
{
    for row in members {
        if !table.is_missing(row.disk) && !is_placed(shelf, mib, row) {
            return false;
        }
    }
    true
}
