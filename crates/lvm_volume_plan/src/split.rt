//! What stands against a volume that is to be split, and the descriptor with both volumes.
ghost use Rattle.std.specs.Prelude.{◌≡◌, ◌≤◌, ◌+◌, ◌*◌, length, IfOk, IfErr, IfSome, IfNone};
ghost use Rattle.lvm_num.specs.Modes.{is_passive};
ghost use Rattle.lvm_num.specs.Descriptor.{IsLaidOut};
ghost use Rattle.lvm_volume_plan.specs.PlannedVolume.{AreOfOneGroup};
ghost use Rattle.lvm_volume_plan.specs.CopiesFaults.{HasVolume};
ghost use Rattle.lvm_volume_plan.specs.Split.{with_split, MayPart, has_unusable, AreUsableBehind, IsFirstUnusable, MayServeBoth, HasCopiesFor, MayBeSplit, RefusesCopies, RefusesSplit};
ghost use Rattle.lvm_volume_plan.specs.PlannedSplit.{IsPlannedSplit};

use crate::below::{CommandDriver, Prepared};
use crate::copies::first_loss;
use crate::fault::GroupFault;
use crate::new_volume::{has_room, most_volumes, takes_commands};
use crate::next::{lowest_free, with_volume};
use crate::with_copies::{copies_at, copies_behind, first_copies, with_copies};
use lvm_disk::Shelf;
use lvm_num::{Descriptor, LvRow, Memory, Mode, Name, Pp, Rows, volume_of};
use lvm_status::StaleTable;
use std::alloc::Global;

/// The number of the volume that a split makes of copies of another one, whether it is to be dirty, and the descriptor
/// with both. All memory is taken with them.
#[derive(Drop)]
pub struct SplitPlan {
    pub from: u16,
    pub number: u16,
    pub dirty: bool,
    pub next: Prepared,
}

impl SplitPlan {
    /// That by which a volume keeps so many copies of each logical partition and the others get this name, unless
    /// something stands against it.
    pub fn new<S: Shelf>(
        alloc: Global,
        driver: &CommandDriver<S>,
        lv: u16,
        name: Name,
        copies: u8,
    ) -> Result<SplitPlan, GroupFault>
        ensures planned { IfOk result (IsPlannedSplit lv name copies driver.now.1) }
        ensures refused { IfErr result (RefusesSplit lv name copies driver.now.1) }
    {
        takes_commands(driver)?;
        let Some(row) = volume_of(driver.descriptor(), lv) else {
            return Err(GroupFault::NoVolume);
        };
        check_names(driver, row, name, copies)?;
        check_copies(driver.table(), row, copies)?;
        check_room(driver, row, name, copies)?;
        match split_plan(alloc, driver, row, name, copies) {
            Ok(plan) => Ok(plan),
            Err(Memory) => Err(GroupFault::Memory),
        }
    }
}

// What stands against it by the names and the number of copies.
fn check_names<S: Shelf>(
    driver: &CommandDriver<S>,
    row: &LvRow,
    name: Name,
    copies: u8,
) -> Result<(), GroupFault>
    requires found { HasVolume row.now.number driver.now.1 row.now }
    ensures may { IfOk result (λ done. MayPart row.now.number name copies driver.now.1 row.now) }
    ensures refused { IfErr result (RefusesSplit row.now.number name copies driver.now.1) }
{
    if driver.volume(name).is_some() {
        return Err(GroupFault::VolumeExists);
    }
    if copies < 1 || copies >= row.copies {
        return Err(GroupFault::CopyLimit { now: row.copies });
    }
    Ok(())
}

// What stands against it for want of room.
fn check_room<S: Shelf>(
    driver: &CommandDriver<S>,
    row: &LvRow,
    name: Name,
    copies: u8,
) -> Result<(), GroupFault>
    requires may { HasCopiesFor row.now.number name copies driver.now.1 row.now }
    ensures may { IfOk result (λ done. MayBeSplit row.now.number name copies driver.now.1 row.now) }
    ensures refused { IfErr result (RefusesSplit row.now.number name copies driver.now.1) }
{
    let group = driver.descriptor();
    let limit = most_volumes(group);
    if group.lvs.len() >= limit as usize {
        return Err(GroupFault::TooMany { limit });
    }
    if !has_room(driver) {
        return Err(GroupFault::HistoryFull);
    }
    Ok(())
}

/// What stands against it by the marks of the copies: whether each copy behind the first ones can be used, and one of
/// each logical partition that stays.
pub fn check_copies(table: &StaleTable, row: &LvRow, copies: u8) -> Result<(), GroupFault>
    requires laid_out { IsLaidOut row.now }
    requires fewer { copies ≤ row.now.copies }
    ensures serve { IfOk result (λ done. MayServeBoth table.now row.now copies) }
    ensures refused { IfErr result (RefusesCopies table.now row.now copies) }
{
    if let Some(lp) = first_unusable(table, row, copies) {
        return Err(GroupFault::StaleCopy { lp });
    }
    match first_loss(table, row, copies) {
        Some(lp) => Err(GroupFault::LastFresh { lp }),
        None => Ok(()),
    }
}

// The first logical partition with a copy behind the first ones that can't be used.
fn first_unusable(table: &StaleTable, row: &LvRow, copies: u8) -> Option<u32>
    requires whole { length row.now.map ≡ row.now.lps * row.now.copies }
    requires fewer { copies ≤ row.now.copies }
    ensures some { IfSome result (IsFirstUnusable table.now row.now copies) }
    ensures none { IfNone result (AreUsableBehind table.now row.now copies) }
{
    for lp in 0..row.lps {
        let all = copies_at(row.map.as_slice(), row.copies, lp);
        if has_unusable(table, &all[usize::from(copies)..]) {
            return Some(lp);
        }
    }
    None
}

// Whether one of the copies is stale, or its disk missing.
fn has_unusable(table: &StaleTable, copies: &[Pp]) -> bool
    ensures { result ≡ has_unusable table.now copies.now }
{
    for pp in copies {
        if table.is_stale(*pp) || table.is_missing(pp.disk) {
            return true;
        }
    }
    false
}

// The plan of a split against which nothing stands.
fn split_plan<S: Shelf>(
    alloc: Global,
    driver: &CommandDriver<S>,
    row: &LvRow,
    name: Name,
    copies: u8,
) -> Result<SplitPlan, Memory>
    requires group { AreOfOneGroup driver.now.1 }
    requires may { MayBeSplit row.now.number name copies driver.now.1 row.now }
    ensures { IfOk result (IsPlannedSplit row.now.number name copies driver.now.1) }
{
    // whose bytes are those of a name
    let _bytes = name.as_bytes();
    let group = driver.descriptor();
    let number = lowest_free(group);
    let next = driver.prepare(alloc, with_split(alloc, group, row, copies, number, name)?)?;
    Ok(SplitPlan {
        from: row.number,
        number,
        dirty: is_passive(row.mode) && driver.table().is_dirty(row.number),
        next,
    })
}

/// Whether volumes of the mode are copied whole once they are dirty.
pub fn is_passive(mode: Mode) -> bool
    ensures { result ≡ is_passive mode }
{
    match mode {
        Mode::Passive => true,
        Mode::Active | Mode::Off => false,
    }
}

// The group in which the volume keeps its first copies, and one more has the others.
fn with_split(
    alloc: Global,
    d: &Descriptor,
    row: &LvRow,
    copies: u8,
    number: u16,
    name: Name,
) -> Result<Descriptor, Memory>
    requires whole { length row.now.map ≡ row.now.lps * row.now.copies }
    requires fewer { copies ≤ row.now.copies }
    requires least { 1 ≤ number }
    requires place { number ≤ length d.now.lvs + 1 }
    ensures { IfOk result (λ next. next ≡ with_split d.now row.now copies number name) }
{
    let first = first_copies(alloc, row, copies)?;
    let kept = with_copies(alloc, d, row.number, copies, first.as_slice())?;
    let split = LvRow {
        number,
        name,
        copies: row.copies - copies,
        mode: row.mode,
        policy: row.policy,
        lps: row.lps,
        map: Rows::new(copies_behind(alloc, row, copies)?),
    };
    with_volume(alloc, &kept, split)
}
