//! The spare to which a copy goes that stands on a missing disk.
ghost use Rattle.std.specs.Prelude.{◌≡◌, ◌<◌, Err, IfErr, IfOk, Ok, Some};
ghost use Rattle.std.specs.List.{list_any};
ghost use Rattle.lvm_num.specs.declared.descriptor.LvRow.{LvRow};
ghost use Rattle.lvm_num.specs.Descriptor.{IsValid, volume_of};
ghost use Rattle.lvm_session.specs.Calls.{has_numbers};
ghost use Rattle.lvm_session.specs.Judging.{is_usable};
ghost use Rattle.lvm_rebuild.specs.Choosing.{choice_of, has_fresh, has_place, is_at_hand, serves, spare_for};

use crate::fault::RebuildFault;
use lvm_disk::Shelf;
use lvm_driver::Driver;
use lvm_migrate::MoveFault;
use lvm_move_plan::{VolumeCopy, is_listed, lowest_free, stands_beside};
use lvm_num::{Descriptor, Pp, PvRow, copies_of, volume_of};

// More than 65,535 numbers are left for the stamps of records.
pub(crate) fn has_numbers<S: Shelf>(driver: &Driver<S>) -> bool
    ensures { result ≡ has_numbers driver.now.1 }
{
    driver.numbers_left() >= 65_536
}

// Whether the disk isn't missing, and wasn't.
fn is_at_hand<S: Shelf>(driver: &Driver<S>, lost: &[u16], disk: u16) -> bool
    ensures { result ≡ is_at_hand driver.now.1 lost.now disk }
{
    !is_listed(lost, disk) && !driver.is_missing(disk)
}

// Whether it has no copy of the logical partition of this one, and a free partition.
fn has_place(d: &Descriptor, copy: VolumeCopy, row: PvRow) -> bool
    requires { IsValid d.now }
    ensures { result ≡ has_place d.now copy row }
{
    !stands_beside(d, row.disk, copy) && lowest_free(d, row).is_some()
}

// Whether a member takes the copy.
fn serves<S: Shelf>(driver: &Driver<S>, lost: &[u16], copy: VolumeCopy, row: PvRow) -> bool
    ensures { result ≡ serves driver.now.1 lost.now copy row }
{
    row.spare && is_at_hand(driver, lost, row.disk) && has_place(driver.descriptor(), copy, row)
}

// The lowest free partition of the first member that takes it.
fn spare_for<S: Shelf>(driver: &Driver<S>, lost: &[u16], copy: VolumeCopy) -> Option<Pp>
    ensures { result ≡ spare_for driver.now.1 lost.now copy }
{
    let d = driver.descriptor();
    for row in d.pvs.as_slice() {
        if serves(driver, lost, copy, *row) {
            return lowest_free(d, *row);
        }
    }
    None
}

// Whether a copy of the logical partition of this one is usable.
fn has_fresh<S: Shelf>(driver: &Driver<S>, copy: VolumeCopy) -> bool
    requires { (row : LvRow) → volume_of driver.now.1.descriptor copy.lv ≡ Some row → copy.lp < row.lps }
    ensures { result ≡ has_fresh driver.now.1 copy }
{
    match volume_of(driver.descriptor(), copy.lv) {
        None => false,
        Some(row) => is_any_usable(driver, copies_of(row, copy.lp)),
    }
}

fn is_any_usable<S: Shelf>(driver: &Driver<S>, pps: &[Pp]) -> bool
    ensures { result ≡ list_any (is_usable driver.now.1) pps.now }
{
    pps.iter().any(|pp| is_usable(driver, *pp))
}

// Whether a copy on this partition is fresh, on a disk that isn't missing.
fn is_usable<S: Shelf>(driver: &Driver<S>, pp: Pp) -> bool
    ensures { result ≡ is_usable driver.now.1 pp }
{
    !driver.table().is_stale(pp) && !driver.is_missing(pp.disk)
}

/// The partition to which the copy goes.
///
/// # Errors
///
/// `HistoryFull`, `NoFresh` and `NoSpare`, in this order.
pub fn choose<S: Shelf>(
    driver: &Driver<S>,
    lost: &[u16],
    copy: VolumeCopy,
) -> Result<Pp, RebuildFault>
    requires { (row : LvRow) → volume_of driver.now.1.descriptor copy.lv ≡ Some row → copy.lp < row.lps }
    ensures chosen { IfOk result (λ pp. choice_of driver.now.1 lost.now copy ≡ Ok pp) }
    ensures refused { IfErr result (λ why. choice_of driver.now.1 lost.now copy ≡ Err why) }
{
    if !has_numbers(driver) {
        return Err(RebuildFault::Move(MoveFault::HistoryFull));
    }
    if !has_fresh(driver, copy) {
        return Err(RebuildFault::Move(MoveFault::NoFresh { lp: copy.lp }));
    }
    match spare_for(driver, lost, copy) {
        Some(pp) => Ok(pp),
        None => Err(RebuildFault::NoSpare { lp: copy.lp }),
    }
}
