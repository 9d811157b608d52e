//! The making and the removal of volumes.
ghost use Rattle.std.specs.Prelude.{◌≡◌, ◌<◌, ◌-◌, ◌≤◌, false, IsFalse, IfSome, IfNone, All, Contains};
ghost use Rattle.lvm_num.specs.declared.place.Pp.{Pp};
ghost use Rattle.lvm_num.specs.Status.{calls_missing, calls_dirty};
ghost use Rattle.lvm_disk.specs.Device.{IsReady};
ghost use Rattle.lvm_vol.specs.Log.{spare_entries, plain_fact};
ghost use Rattle.lvm_map.specs.FirstFit.{has_partition_on};
ghost use Rattle.lvm_volume_plan.specs.passed.Commit.{IsAlike};
ghost use Rattle.lvm_volume_plan.specs.passed.Core.{state_of, Leaves, MarkEnds, NoDescriptor, NoPartition, IsSettled, HasSpareNumbers, IsEntryOfCommand};
ghost use Rattle.lvm_volume_plan.specs.Faults.{TakesCommands, IfOn, command_answer};
ghost use Rattle.lvm_volume_plan.specs.PlannedVolume.{AreOfOneGroup, IsWithout};
ghost use Rattle.lvm_volumes.specs.Endings.{StillHeld, KeepsFresh, commanding, removing_by};
ghost use Rattle.lvm_volumes.specs.Stages.{AreUnusedOn, IsLowestMissing, ZerosEnd, ClearEnds, MakeEnds, MayMake, RemoveEnds, UnnameEnds, CommitsBetween, IsGoneFrom, unmarking};
ghost use Rattle.lvm_volumes.specs.Volumes.{MklvGives, RmlvGives, to_make, to_remove};

use lvm_disk::Shelf;
use lvm_num::{DISKS, Mode, Name, Policy, Pp, has_partition_on};
use lvm_status::StaleTable;
use lvm_vol::{Entry, Vol};
use lvm_volume_plan::below::{CommandDriver, CommitFault, Patience, Prepared};
use lvm_volume_plan::{GroupFault, NewVolume, VolumePlan, prepare_without};
use std::alloc::Global;

/// Makes a volume of the group that is on, and answers its number, the lowest that is free. Its partitions are
/// those of first fit on the members that aren't missing. They become fresh, and zeros are written to them; then
/// the descriptor that names the volume is committed, between the two entries of it. All memory is taken before
/// the first write.
///
/// The causes, in their order: `Dark` and `WentOff`, where the session is over; `Busy`, where a request is open;
/// `VolumeExists`, where a volume has the name; `CopyLimit`, where not one to three copies are asked for; `TooMany`, where the
/// group has as many volumes as it may; `NoRoom`, where first fit finds no place; `HistoryFull`, with fewer than
/// two entries to spare or than 65,536 sequence numbers; and from the first write on `Dark`, `WentOff`, `Stuck`,
/// and `DiskFailed`, where a disk failed on which the volume was to have a partition: the volume isn't made then.
/// `Memory` may come before the first write, where none of the causes before `NoRoom` holds.
///
/// A member to which a record can't be written becomes missing; its fresh copies become stale where another copy of
/// their logical partition is usable. No other partition becomes stale.
pub fn mklv<S: Shelf>(
    alloc: Global,
    driver: &mut CommandDriver<S>,
    name: Name,
    copies: u8,
    mode: Mode,
    policy: Policy,
    lps: u32,
    patience: &mut Patience,
) -> Result<u16, GroupFault>
    // where nothing is open, nothing is under way
    requires settled { TakesCommands driver.old.1 → IsSettled driver.old.1 }
    requires some { 1 ≤ lps }
    ensures gives { MklvGives (record { name = name; copies = copies; mode = mode; policy = policy; lps = lps }) patience.old.left (state_of S.device driver.old) (state_of S.device driver.new) result }
    ensures settled { TakesCommands driver.old.1 → IfOn result (IsSettled driver.new.1) }
    ensures held { IfOn result (StillHeld (state_of S.device driver.old) (state_of S.device driver.new)) }
    ensures fresh { IfOn result (KeepsFresh (state_of S.device driver.old) (state_of S.device driver.new)) }
    // whatever the answer
    ensures leaves { Leaves (to_make (record { name = name; copies = copies; mode = mode; policy = policy; lps = lps }) driver.old.1) patience.old.left patience.new.left (state_of S.device driver.old) (state_of S.device driver.new) }
{
    let v = NewVolume {
        name,
        copies,
        mode,
        policy,
        lps,
    };
    let plan = VolumePlan::new(alloc, driver, &v)?;
    let number = plan.number;
    make(driver, plan, patience)?;
    Ok(number)
}

/// Removes a volume of the group that is on: the descriptor without it is committed, between the two entries of its
/// removal, and where it was dirty a status without its mark. All memory is taken before the first write.
///
/// The causes, in their order: `Dark` and `WentOff`, where the session is over; `Busy`, where a request is open;
/// `NoVolume`, where the group has none of the number; `HistoryFull`, with fewer than two entries to spare or than
/// 65,536 sequence numbers; and from the first write on `Dark`, `WentOff` and `Stuck`. `Memory` may come before the
/// first write, where none of the causes before it holds. Members become missing, and copies stale, as by `mklv`.
/// The three that come with a write may come at that status, behind both entries: the volume is removed all the same.
pub fn rmlv<S: Shelf>(
    alloc: Global,
    driver: &mut CommandDriver<S>,
    lv: u16,
    patience: &mut Patience,
) -> Result<(), GroupFault>
    // where nothing is open, nothing is under way
    requires settled { TakesCommands driver.old.1 → IsSettled driver.old.1 }
    ensures gives { RmlvGives lv patience.old.left (state_of S.device driver.old) (state_of S.device driver.new) result }
    ensures settled { TakesCommands driver.old.1 → IfOn result (IsSettled driver.new.1) }
    ensures held { IfOn result (StillHeld (state_of S.device driver.old) (state_of S.device driver.new)) }
    ensures fresh { IfOn result (KeepsFresh (state_of S.device driver.old) (state_of S.device driver.new)) }
    // whatever the answer
    ensures leaves { Leaves (to_remove lv driver.old.1) patience.old.left patience.new.left (state_of S.device driver.old) (state_of S.device driver.new) }
{
    let next = prepare_without(alloc, driver, lv)?;
    remove(driver, lv, next, patience)?;
    Ok(())
}

// Makes the volume of a plan.
fn make<S: Shelf>(
    driver: &mut CommandDriver<S>,
    plan: VolumePlan,
    patience: &mut Patience,
) -> Result<(), CommitFault>
    requires settled { IsSettled driver.old.1 }
    requires may { MayMake driver.old.1 plan }
    ensures ends { MakeEnds plan patience.old.left (state_of S.device driver.old) (state_of S.device driver.new) result }
    ensures held { IfOn (command_answer result) (StillHeld (state_of S.device driver.old) (state_of S.device driver.new)) }
    ensures fresh { IfOn (command_answer result) (KeepsFresh (state_of S.device driver.old) (state_of S.device driver.new)) }
    ensures leaves { Leaves (commanding (λ next. next ≡ plan.next) (Contains plan.map) 2) patience.old.left patience.new.left (state_of S.device driver.old) (state_of S.device driver.new) }
{
    clear(driver, plan.map.as_slice(), patience)?;
    let lv = plan.number;
    let making = Entry::Making {
        lv,
        blocks: plan.blocks,
        mode: plan.mode,
    };
    commit_between(driver, making, plan.next, Entry::Made { lv }, patience)
}

// Removes a volume, by the descriptor without it, and then a status in which its number isn't dirty.
fn remove<S: Shelf>(
    driver: &mut CommandDriver<S>,
    lv: u16,
    next: Prepared,
    patience: &mut Patience,
) -> Result<(), CommitFault>
    requires settled { IsSettled driver.old.1 }
    requires without { IsWithout lv driver.old.1 next }
    ensures ends { RemoveEnds lv next patience.old.left (state_of S.device driver.old) (state_of S.device driver.new) result }
    ensures held { IfOn (command_answer result) (StillHeld (state_of S.device driver.old) (state_of S.device driver.new)) }
    ensures fresh { IfOn (command_answer result) (KeepsFresh (state_of S.device driver.old) (state_of S.device driver.new)) }
    ensures leaves { Leaves (removing_by (λ d. d ≡ next) lv) patience.old.left patience.new.left (state_of S.device driver.old) (state_of S.device driver.new) }
{
    unname(driver, lv, next, patience)?;
    drop_mark(driver, lv, patience)
}

// Commits a status in which the number of a volume that is gone isn't dirty. Where it isn't, nothing is written.
fn drop_mark<S: Shelf>(
    driver: &mut CommandDriver<S>,
    lv: u16,
    patience: &mut Patience,
) -> Result<(), CommitFault>
    requires settled { IsSettled driver.old.1 }
    requires numbers { HasSpareNumbers driver.old.1 }
    requires gone { IsGoneFrom lv driver.old.1.descriptor }
    ensures ends { MarkEnds patience.old.left (state_of S.device driver.old) (state_of S.device driver.new) result }
    ensures clean { IsFalse (calls_dirty driver.new.1.status.wanted lv) }
    ensures held { IfOn (command_answer result) (StillHeld (state_of S.device driver.old) (state_of S.device driver.new)) }
    ensures fresh { IfOn (command_answer result) (KeepsFresh (state_of S.device driver.old) (state_of S.device driver.new)) }
    ensures leaves { Leaves (unmarking lv) patience.old.left patience.new.left (state_of S.device driver.old) (state_of S.device driver.new) }
{
    driver.mark_dirty(&[], &[lv], patience)
}

// Commits the descriptor without a volume, between the two entries of its removal.
fn unname<S: Shelf>(
    driver: &mut CommandDriver<S>,
    lv: u16,
    next: Prepared,
    patience: &mut Patience,
) -> Result<(), CommitFault>
    requires settled { IsSettled driver.old.1 }
    requires without { IsWithout lv driver.old.1 next }
    ensures ends { UnnameEnds lv next patience.old.left (state_of S.device driver.old) (state_of S.device driver.new) result }
    ensures held { IfOn (command_answer result) (StillHeld (state_of S.device driver.old) (state_of S.device driver.new)) }
    ensures fresh { IfOn (command_answer result) (KeepsFresh (state_of S.device driver.old) (state_of S.device driver.new)) }
    ensures leaves { Leaves (commanding (λ d. d ≡ next) NoPartition 1) patience.old.left patience.new.left (state_of S.device driver.old) (state_of S.device driver.new) }
{
    let vol = Vol::Lv(lv);
    let removing = Entry::Removing { vol };
    commit_between(driver, removing, next, Entry::Removed { vol }, patience)
}

/// Commits a descriptor between two entries of a volume.
pub fn commit_between<S: Shelf>(
    driver: &mut CommandDriver<S>,
    first: Entry,
    next: Prepared,
    last: Entry,
    patience: &mut Patience,
) -> Result<(), CommitFault>
    requires settled { IsSettled driver.old.1 }
    requires numbers { HasSpareNumbers driver.old.1 }
    requires spare { 2 ≤ spare_entries driver.old.1.history }
    requires command { IsEntryOfCommand first × IsEntryOfCommand last }
    requires alike { IsAlike next driver.old.1.descriptor }
    ensures { CommitsBetween (plain_fact first) (plain_fact last) next patience.old.left patience.new.left (state_of S.device driver.old) (state_of S.device driver.new) result }
{
    driver.enter(first);
    driver.commit(next, patience)?;
    driver.enter(last);
    Ok(())
}

// Makes partitions fresh, and writes zeros to them.
fn clear<S: Shelf>(
    driver: &mut CommandDriver<S>,
    map: &[Pp],
    patience: &mut Patience,
) -> Result<(), CommitFault>
    requires settled { IsSettled driver.old.1 }
    requires numbers { HasSpareNumbers driver.old.1 }
    requires group { AreOfOneGroup driver.old.1 }
    requires unused { AreUnusedOn driver.old.1 map.now }
    ensures ends { ClearEnds map.now patience.old.left (state_of S.device driver.old) (state_of S.device driver.new) result }
    ensures held { IfOn (command_answer result) (StillHeld (state_of S.device driver.old) (state_of S.device driver.new)) }
    ensures fresh { IfOn (command_answer result) (KeepsFresh (state_of S.device driver.old) (state_of S.device driver.new)) }
    ensures leaves { Leaves (commanding NoDescriptor (Contains map.now) 1) patience.old.left patience.new.left (state_of S.device driver.old) (state_of S.device driver.new) }
{
    driver.set_status(&[], map, patience)?;
    if let Some(disk) = lowest_missing(driver.table(), map) {
        return Err(CommitFault::DiskFailed { disk });
    }
    zero_all(driver, map, patience)
}

// The lowest of the partitions' disks that a table calls missing.
fn lowest_missing(table: &StaleTable, map: &[Pp]) -> Option<u16>
    requires { All (λ (pp : Pp). pp.disk < 128) map.now }
    ensures some { IfSome result (IsLowestMissing table.now map.now) }
    ensures none { IfNone result (All (λ (pp : Pp). calls_missing table.now pp.disk ≡ false) map.now) }
{
    for disk in 0..DISKS {
        if has_partition_on(map, disk) && table.is_missing(disk) {
            return Some(disk);
        }
    }
    None
}

// Writes zeros to partitions, until a disk fails.
fn zero_all<S: Shelf>(
    driver: &mut CommandDriver<S>,
    map: &[Pp],
    patience: &mut Patience,
) -> Result<(), CommitFault>
    requires settled { IsSettled driver.old.1 }
    requires ready { IsReady (S.device driver.old.0) }
    requires unused { AreUnusedOn driver.old.1 map.now }
    ensures ends { ZerosEnd map.now patience.old.left (state_of S.device driver.old) (state_of S.device driver.new) result }
    ensures held { IfOn (command_answer result) (StillHeld (state_of S.device driver.old) (state_of S.device driver.new)) }
    ensures leaves { Leaves (commanding NoDescriptor (Contains map.now) 0) patience.old.left patience.new.left (state_of S.device driver.old) (state_of S.device driver.new) }
{
    for pp in map {
        driver.zero(*pp, patience)?;
    }
    Ok(())
}
