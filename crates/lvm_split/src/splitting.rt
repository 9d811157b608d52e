//! A volume is split: of each logical partition it keeps some copies, and the others become a volume of their own.
ghost use Rattle.std.specs.Prelude.{IfOk, IfErr};
ghost use Rattle.lvm_num.specs.declared.descriptor.LvRow.{LvRow};
ghost use Rattle.lvm_volume_plan.specs.passed.Core.{state_of, Leaves, IsSettled};
ghost use Rattle.lvm_volume_plan.specs.Faults.{TakesCommands, IfOn};
ghost use Rattle.lvm_volume_plan.specs.Split.{MayServeBoth, RefusesCopies};
ghost use Rattle.lvm_volumes.specs.Endings.{StillHeld, KeepsFresh};
ghost use Rattle.lvm_split.specs.Parting.{IsToShrink, MayPartBy, PartEnds, parting};
ghost use Rattle.lvm_split.specs.Splitting.{SplitGives, to_split};

use lvm_disk::Shelf;
use lvm_num::{Name, volume_of};
use lvm_transfer::Patience;
use lvm_vol::Entry;
use lvm_volume_plan::below::CommandDriver;
use lvm_volume_plan::{GroupFault, SplitPlan, check_copies};
use lvm_volumes::commit_between;
use std::alloc::Global;

/// Lets a volume of the group that is on keep the first copies of each logical partition, so many, and makes a volume
/// of the others, in the order in which they stood, under this name. It answers that volume's number, the lowest that is free.
/// Both have the mode, the policy and the logical partitions that the volume had. One descriptor is committed with both,
/// between the two entries of it; where the volume is in mode passive and dirty, a status is committed before by which
/// the new one is too. All memory is taken before the first write.
///
/// The causes, in their order: `Dark` and `WentOff`, where the session is over; `Busy`, where a request is open;
/// `NoVolume`, where the group has none of the number; `VolumeExists`, where one has the name; `CopyLimit`, where so many
/// aren't fewer than it has, or are none; `StaleCopy`, where a copy of the new volume can't be used, with the first logical
/// partition of which that is so; `LastFresh`, where none that stays can be used, likewise; `TooMany`, where the group has
/// as many volumes as it may; `HistoryFull`, with fewer than two entries to spare or than 65,536 sequence numbers; and from
/// the first write on `Dark`, `WentOff` and `Stuck`. `Memory` may come before the first write, where none of the causes
/// before it holds.
///
/// The copies are judged once more behind the status with the mark, since a member may be lost by it: then `StaleCopy` or
/// `LastFresh` comes, and nothing is split. The mark of a number that no volume has means nothing.
pub fn split<S: Shelf>(
    alloc: Global,
    driver: &mut CommandDriver<S>,
    lv: u16,
    name: Name,
    copies: u8,
    patience: &mut Patience,
) -> Result<u16, GroupFault>
    // where nothing is open, nothing is under way
    requires settled { TakesCommands driver.old.1 → IsSettled driver.old.1 }
    ensures gives { SplitGives lv name copies patience.old.left (state_of S.device driver.old) (state_of S.device driver.new) result }
    ensures settled { TakesCommands driver.old.1 → IfOn result (IsSettled driver.new.1) }
    ensures held { IfOn result (StillHeld (state_of S.device driver.old) (state_of S.device driver.new)) }
    ensures fresh { IfOn result (KeepsFresh (state_of S.device driver.old) (state_of S.device driver.new)) }
    // whatever the answer
    ensures leaves { Leaves (to_split lv name copies driver.old.1) patience.old.left patience.new.left (state_of S.device driver.old) (state_of S.device driver.new) }
{
    let plan = SplitPlan::new(alloc, driver, lv, name, copies)?;
    let number = plan.number;
    part(driver, copies, plan, patience)?;
    Ok(number)
}

// Carries out the split of a plan, by which a volume keeps so many copies.
fn part<S: Shelf>(
    driver: &mut CommandDriver<S>,
    copies: u8,
    plan: SplitPlan,
    patience: &mut Patience,
) -> Result<(), GroupFault>
    requires settled { IsSettled driver.old.1 }
    requires may { MayPartBy copies driver.old.1 plan }
    ensures ends { PartEnds copies plan patience.old.left (state_of S.device driver.old) (state_of S.device driver.new) result }
    ensures held { IfOn result (StillHeld (state_of S.device driver.old) (state_of S.device driver.new)) }
    ensures fresh { IfOn result (KeepsFresh (state_of S.device driver.old) (state_of S.device driver.new)) }
    ensures leaves { Leaves (parting plan) patience.old.left patience.new.left (state_of S.device driver.old) (state_of S.device driver.new) }
{
    let lv = plan.number;
    let marked = [lv];
    driver.mark_dirty(&marked[..usize::from(plan.dirty)], &[], patience)?;
    judge_again(driver, plan.from, copies)?;
    let split = Entry::Split {
        from: plan.from,
        lv,
    };
    commit_between(driver, split, plan.next, Entry::Made { lv }, patience)?;
    Ok(())
}

// What stands against it by the marks that the copies have now.
fn judge_again<S: Shelf>(driver: &CommandDriver<S>, lv: u16, copies: u8) -> Result<(), GroupFault>
    requires may { (row : LvRow) × IsToShrink lv copies driver.now.1 row }
    ensures serve { IfOk result (λ done. (row : LvRow) × IsToShrink lv copies driver.now.1 row × MayServeBoth driver.now.1.status.committed row copies) }
    ensures refused { IfErr result (λ why. (row : LvRow) × IsToShrink lv copies driver.now.1 row × RefusesCopies driver.now.1.status.committed row copies why) }
{
    let Some(row) = volume_of(driver.descriptor(), lv) else {
        unreachable!()
    };
    check_copies(driver.table(), row, copies)
}
