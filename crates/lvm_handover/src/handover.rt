//! From one driver to the other.
ghost use Rattle.std.specs.Prelude.{◌≡◌, All};
ghost use Rattle.lvm_status.specs.Calls.{IsMarkable};
ghost use Rattle.lvm_status.specs.Members.{HasItsRows};
ghost use Rattle.lvm_session.specs.State.{state};
ghost use Rattle.lvm_session.specs.Sound.{IsSound};
ghost use Rattle.lvm_handover.specs.passed.Core.{IsSettled, IsSoundAtRest};
ghost use Rattle.lvm_handover.specs.Settling.{MayHandOver};
ghost use Rattle.lvm_handover.specs.Serving.{OriginIsMarked, MarksAdded, MarksMissing, MayServe};

use crate::below::{CommandDriver, driver};
use lvm_disk::Shelf;
use lvm_num::{Descriptor, Pp};
use lvm_status::StaleTable;

/// A session whose turns have nothing left to make, and of which neither a request nor a copy is open, takes commands on
/// its group.
pub fn settle<S: Shelf>(driver: driver::Driver<S>) -> CommandDriver<S>
    requires may { MayHandOver (state (S.device driver.0) driver.1) }
    ensures shelf { result.0 ≡ driver.0 }
    ensures core { result.1 ≡ driver.1 }
    ensures settled { IsSettled driver.1 }
    ensures between { IsSoundAtRest (state (S.device driver.0) driver.1) }
    // What held of it all the time.
    ensures sound { IsSound (state (S.device driver.0) driver.1) }
{
    let (shelf, session) = driver.into_parts();
    CommandDriver::from_parts(shelf, session)
}

/// The session takes requests again. The partitions of copies that a command added count as stale since the session
/// began, and members that are missing by now as missing since.
pub fn serve<S: Shelf>(driver: CommandDriver<S>, added: &[Pp]) -> driver::Driver<S>
    requires rows { HasItsRows driver.1.descriptor driver.1.origin.table }
    requires markable { All (IsMarkable driver.1.origin.table) added.now }
    requires may { MayServe added.now (state (S.device driver.0) driver.1) }
    ensures shelf { result.0 ≡ driver.0 }
    ensures served { OriginIsMarked added.now driver.1 result.1 }
    ensures sound { IsSound (state (S.device result.0) result.1) }
{
    let (shelf, mut session) = driver.into_parts();
    let table = &mut session.origin.table;
    mark_added(table, added);
    mark_missing(table, &session.descriptor, session.updater.wanted());
    driver::Driver::from_parts(shelf, session)
}

// These partitions are stale.
fn mark_added(table: &mut StaleTable, added: &[Pp])
    requires rows { All (IsMarkable table.old) added.now }
    ensures { MarksAdded added.now table.old table.new }
{
    for pp in added {
        table.mark(*pp);
    }
}

// The members that are missing by another status are missing.
fn mark_missing(table: &mut StaleTable, group: &Descriptor, now: &StaleTable)
    requires rows { HasItsRows group.now table.old }
    ensures { MarksMissing group.now.pvs now.now table.old table.new }
{
    for member in group.pvs.as_slice() {
        if now.is_missing(member.disk) {
            table.set_missing(member.disk, true);
        }
    }
}
