//! What stands against copies that are to be added or removed, and the descriptor with them.
ghost use Rattle.std.specs.Prelude.{◌≡◌, ◌≤◌, ◌<◌, ◌*◌, ◌&&◌, not, ℕ, length, take, drop, IsFalse, IfOk, IfErr, IfSome, IfNone};
ghost use Rattle.lvm_num.specs.declared.descriptor.LvRow.{LvRow};
ghost use Rattle.lvm_volume_plan.specs.passed.Core.{IsSettled};
ghost use Rattle.lvm_volume_plan.specs.Faults.{TakesCommands};
ghost use Rattle.lvm_volume_plan.specs.PlannedVolume.{AreOfOneGroup};
ghost use Rattle.lvm_volume_plan.specs.CopiesFaults.{MayGrow, HasFurtherPlaces, MayBeAdded, RefusesMklvcopy, MayShrink, has_fresh, has_usable, is_loss, IsFirstLoss, LosesNone, MayBeTaken, RefusesRmlvcopy};
ghost use Rattle.lvm_volume_plan.specs.PlannedCopies.{ArePlanned, IsWithFewer};

use crate::below::{CommandDriver, Prepared};
use crate::fault::GroupFault;
use crate::new_volume::{has_room, takes_commands};
use crate::with_copies::{copies_at, first_copies, further_copies, with_copies};
use lvm_disk::Shelf;
use lvm_map::{MapFault, allocate_more};
use lvm_num::{LvRow, MOST_COPIES, Memory, Pp, Rows, volume_among};
use lvm_status::{StaleTable, members_there};
use std::alloc::Global;

/// The partitions that a volume gets with more copies, and the descriptor with them. All memory is taken with them.
#[derive(Drop)]
pub struct MoreCopies {
    pub added: Rows<Pp>,
    pub next: Prepared,
}

impl MoreCopies {
    /// Those with which a volume has so many copies, unless something stands against them.
    pub fn new<S: Shelf>(
        alloc: Global,
        driver: &CommandDriver<S>,
        lv: u16,
        copies: u8,
    ) -> Result<MoreCopies, GroupFault>
        requires settled { TakesCommands driver.now.1 → IsSettled driver.now.1 }
        ensures planned { IfOk result (λ more. ArePlanned lv copies driver.now.1 more.added more.next) }
        ensures refused { IfErr result (RefusesMklvcopy lv copies driver.now.1) }
    {
        check_more(driver, lv, copies)?;
        let map = places(alloc, driver, lv, copies)?;
        if !has_room(driver) {
            return Err(GroupFault::HistoryFull);
        }
        match more(alloc, driver, lv, copies, map) {
            Ok(more) => Ok(more),
            Err(Memory) => Err(GroupFault::Memory),
        }
    }
}

/// The descriptor in which a volume keeps its first copies, up to so many, unless something stands against it.
pub fn prepare_fewer<S: Shelf>(
    alloc: Global,
    driver: &CommandDriver<S>,
    lv: u16,
    copies: u8,
) -> Result<Prepared, GroupFault>
    ensures fewer { IfOk result (IsWithFewer lv copies driver.now.1) }
    ensures refused { IfErr result (RefusesRmlvcopy lv copies driver.now.1) }
{
    check_fewer(driver, lv, copies)?;
    check_fresh(driver, lv, copies)?;
    if !has_room(driver) {
        return Err(GroupFault::HistoryFull);
    }
    match fewer(alloc, driver, lv, copies) {
        Ok(next) => Ok(next),
        Err(Memory) => Err(GroupFault::Memory),
    }
}

// What stands against more copies before places are looked for.
fn check_more<S: Shelf>(driver: &CommandDriver<S>, lv: u16, copies: u8) -> Result<(), GroupFault>
    ensures may { IfOk result (λ done. (row : LvRow) × MayGrow lv copies driver.now.1 row) }
    ensures group { IfOk result (λ done. AreOfOneGroup driver.now.1) }
    ensures refused { IfErr result (RefusesMklvcopy lv copies driver.now.1) }
{
    takes_commands(driver)?;
    let Some(row) = volume_among(driver.descriptor().lvs.as_slice(), lv) else {
        return Err(GroupFault::NoVolume);
    };
    if copies <= row.copies || copies > MOST_COPIES {
        return Err(GroupFault::CopyLimit { now: row.copies });
    }
    Ok(())
}

// The whole map with more copies by first fit, on the members that aren't missing.
fn places<S: Shelf>(
    alloc: Global,
    driver: &CommandDriver<S>,
    lv: u16,
    copies: u8,
) -> Result<Rows<Pp>, GroupFault>
    requires settled { IsSettled driver.now.1 }
    requires may { (row : LvRow) × MayGrow lv copies driver.now.1 row }
    ensures places { IfOk result (λ map. (row : LvRow) × HasFurtherPlaces lv copies driver.now.1 row map) }
    ensures refused { IfErr result (RefusesMklvcopy lv copies driver.now.1) }
{
    let group = driver.descriptor();
    let usable = members_there(group, driver.table());
    match allocate_more(alloc, group, usable, lv, copies) {
        Ok(map) => Ok(map),
        Err(MapFault::NoRoom { free }) => Err(GroupFault::NoRoom { free }),
        Err(MapFault::Memory) => Err(GroupFault::Memory),
    }
}

// What is planned for a volume with this map, against which nothing stands.
fn more<S: Shelf>(
    alloc: Global,
    driver: &CommandDriver<S>,
    lv: u16,
    copies: u8,
    map: Rows<Pp>,
) -> Result<MoreCopies, Memory>
    requires group { AreOfOneGroup driver.now.1 }
    requires may { (row : LvRow) × MayBeAdded lv copies driver.now.1 row map }
    ensures { IfOk result (λ more. ArePlanned lv copies driver.now.1 more.added more.next) }
{
    let group = driver.descriptor();
    let Some(row) = volume_among(group.lvs.as_slice(), lv) else {
        unreachable!()
    };
    let places = map.as_slice();
    let added = further_copies(alloc, row, copies, places)?;
    let next = driver.prepare(alloc, with_copies(alloc, group, lv, copies, places)?)?;
    Ok(MoreCopies {
        added: Rows::new(added),
        next,
    })
}

// What stands against fewer copies before their marks are looked at.
fn check_fewer<S: Shelf>(driver: &CommandDriver<S>, lv: u16, copies: u8) -> Result<(), GroupFault>
    ensures may { IfOk result (λ done. (row : LvRow) × MayShrink lv copies driver.now.1 row) }
    ensures group { IfOk result (λ done. AreOfOneGroup driver.now.1) }
    ensures refused { IfErr result (RefusesRmlvcopy lv copies driver.now.1) }
{
    takes_commands(driver)?;
    let Some(row) = volume_among(driver.descriptor().lvs.as_slice(), lv) else {
        return Err(GroupFault::NoVolume);
    };
    if copies < 1 || copies >= row.copies {
        return Err(GroupFault::CopyLimit { now: row.copies });
    }
    Ok(())
}

// What stands against it by the marks of the copies.
fn check_fresh<S: Shelf>(driver: &CommandDriver<S>, lv: u16, copies: u8) -> Result<(), GroupFault>
    requires may { (row : LvRow) × MayShrink lv copies driver.now.1 row }
    ensures none { IfOk result (λ done. (row : LvRow) × LosesNone lv copies driver.now.1 row) }
    ensures refused { IfErr result (RefusesRmlvcopy lv copies driver.now.1) }
{
    let Some(row) = volume_among(driver.descriptor().lvs.as_slice(), lv) else {
        unreachable!()
    };
    match first_loss(driver.table(), row, copies) {
        Some(lp) => Err(GroupFault::LastFresh { lp }),
        None => Ok(()),
    }
}

/// The first logical partition that loses a fresh copy with those behind the first ones, and keeps none to use.
pub fn first_loss(table: &StaleTable, row: &LvRow, copies: u8) -> Option<u32>
    requires whole { length row.now.map ≡ row.now.lps * row.now.copies }
    requires fewer { copies ≤ row.now.copies }
    ensures some { IfSome result (IsFirstLoss table.now row.now copies) }
    ensures none { IfNone result ((lp : ℕ) → lp < row.now.lps → IsFalse (is_loss table.now row.now copies lp)) }
{
    for lp in 0..row.lps {
        let all = copies_at(row.map.as_slice(), row.copies, lp);
        let kept = usize::from(copies);
        if is_loss(table, &all[..kept], &all[kept..]) {
            return Some(lp);
        }
    }
    None
}

// Whether one of the copies that go is fresh, and none of those that stay can be used.
fn is_loss(table: &StaleTable, stay: &[Pp], go: &[Pp]) -> bool
    ensures { result ≡ has_fresh table.now go.now && not (has_usable table.now stay.now) }
{
    has_fresh(table, go) && !has_usable(table, stay)
}

// Whether one of the copies is fresh.
fn has_fresh(table: &StaleTable, copies: &[Pp]) -> bool
    ensures { result ≡ has_fresh table.now copies.now }
{
    for pp in copies {
        if !table.is_stale(*pp) {
            return true;
        }
    }
    false
}

/// Whether one of the copies is fresh, on a disk that isn't missing.
pub fn has_usable(table: &StaleTable, copies: &[Pp]) -> bool
    ensures { result ≡ has_usable table.now copies.now }
{
    for pp in copies {
        if !table.is_stale(*pp) && !table.is_missing(pp.disk) {
            return true;
        }
    }
    false
}

// The descriptor with fewer copies, against which nothing stands.
fn fewer<S: Shelf>(
    alloc: Global,
    driver: &CommandDriver<S>,
    lv: u16,
    copies: u8,
) -> Result<Prepared, Memory>
    requires group { AreOfOneGroup driver.now.1 }
    requires may { (row : LvRow) × MayBeTaken lv copies driver.now.1 row }
    ensures { IfOk result (IsWithFewer lv copies driver.now.1) }
{
    let group = driver.descriptor();
    let Some(row) = volume_among(group.lvs.as_slice(), lv) else {
        unreachable!()
    };
    let map = first_copies(alloc, row, copies)?;
    driver.prepare(
        alloc,
        with_copies(alloc, group, lv, copies, map.as_slice())?,
    )
}
