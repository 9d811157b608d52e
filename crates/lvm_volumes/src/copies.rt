//! The addition and the removal of copies.
ghost use Rattle.lvm_volume_plan.specs.passed.Core.{state_of, Leaves, IsSettled};
ghost use Rattle.lvm_volume_plan.specs.Faults.{TakesCommands, IfOn, command_answer};
ghost use Rattle.lvm_volumes.specs.Endings.{StillHeld, KeepsFresh};
ghost use Rattle.lvm_volumes.specs.Mirrors.{MklvcopyGives, RmlvcopyGives, to_add, to_take};
ghost use Rattle.lvm_volumes.specs.MirrorStages.{MayAdd, adding, AddEnds};

use lvm_disk::Shelf;
use lvm_num::{Pp, Rows};
use lvm_transfer::Patience;
use lvm_volume_plan::below::{CommandDriver, CommitFault, Prepared};
use lvm_volume_plan::{GroupFault, MoreCopies, prepare_fewer};
use std::alloc::Global;

/// Gives a volume of the group that is on further copies, until it has so many, and answers their partitions. They
/// are put by first fit on the members that aren't missing, each logical partition's on disks on which it has no
/// copy. They become stale first; then the descriptor with them is committed, in which the old copies of each
/// logical partition come before the new ones. All memory is taken before the first write. Nothing is entered.
///
/// The causes, in their order: `Dark` and `WentOff`, where the session is over; `Busy`, where a request is open;
/// `NoVolume`, where the group has none of the number; `CopyLimit`, where so many aren't more than it has, or are
/// more than three; `NoRoom`, where first fit finds no place; `HistoryFull`, with fewer than two entries to spare or
/// than 65,536 sequence numbers; and from the first write on `Dark`, `WentOff` and `Stuck`. `Memory` may come before
/// the first write, where none of the causes before `NoRoom` holds.
///
/// A member to which a record can't be written becomes missing; its fresh copies become stale where another copy of
/// their logical partition is usable.
pub fn mklvcopy<S: Shelf>(
    alloc: Global,
    driver: &mut CommandDriver<S>,
    lv: u16,
    copies: u8,
    patience: &mut Patience,
) -> Result<Rows<Pp>, GroupFault>
    // where nothing is open, nothing is under way
    requires settled { TakesCommands driver.old.1 → IsSettled driver.old.1 }
    ensures gives { MklvcopyGives lv copies patience.old.left (state_of S.device driver.old) (state_of S.device driver.new) result }
    ensures settled { TakesCommands driver.old.1 → IfOn result (IsSettled driver.new.1) }
    ensures held { IfOn result (StillHeld (state_of S.device driver.old) (state_of S.device driver.new)) }
    ensures fresh { IfOn result (KeepsFresh (state_of S.device driver.old) (state_of S.device driver.new)) }
    // whatever the answer
    ensures leaves { Leaves (to_add lv copies driver.old.1) patience.old.left patience.new.left (state_of S.device driver.old) (state_of S.device driver.new) }
{
    let more = MoreCopies::new(alloc, driver, lv, copies)?;
    let next = more.next;
    add(driver, more.added.as_slice(), next, patience)?;
    Ok(more.added)
}

/// Lets a volume of the group that is on keep the first copies of each logical partition, so many: the descriptor
/// without the others is committed. All memory is taken before the first write. Nothing is entered.
///
/// The causes, in their order: `Dark` and `WentOff`, where the session is over; `Busy`, where a request is open;
/// `NoVolume`, where the group has none of the number; `CopyLimit`, where so many aren't fewer than it has, or are
/// none; `LastFresh`, where of a logical partition a copy that goes is fresh and none that stays can be used, with the
/// first such; `HistoryFull`, as of `mklvcopy`; and from the first write on `Dark`, `WentOff` and `Stuck`. `Memory` may
/// come before the first write, where none of the causes before it holds.
///
/// A copy can be used that the committed status calls fresh, on a member that isn't missing. A fresh copy on a missing
/// member may be gone with the member's records, so it counts as lost here: this project's own rule.
pub fn rmlvcopy<S: Shelf>(
    alloc: Global,
    driver: &mut CommandDriver<S>,
    lv: u16,
    copies: u8,
    patience: &mut Patience,
) -> Result<(), GroupFault>
    // where nothing is open, nothing is under way
    requires settled { TakesCommands driver.old.1 → IsSettled driver.old.1 }
    ensures gives { RmlvcopyGives lv copies patience.old.left (state_of S.device driver.old) (state_of S.device driver.new) result }
    ensures settled { TakesCommands driver.old.1 → IfOn result (IsSettled driver.new.1) }
    ensures held { IfOn result (StillHeld (state_of S.device driver.old) (state_of S.device driver.new)) }
    ensures fresh { IfOn result (KeepsFresh (state_of S.device driver.old) (state_of S.device driver.new)) }
    // whatever the answer
    ensures leaves { Leaves (to_take lv copies driver.old.1) patience.old.left patience.new.left (state_of S.device driver.old) (state_of S.device driver.new) }
{
    let fewer = prepare_fewer(alloc, driver, lv, copies)?;
    driver.commit(fewer, patience)?;
    Ok(())
}

// Makes partitions stale, and commits the descriptor with them.
fn add<S: Shelf>(
    driver: &mut CommandDriver<S>,
    added: &[Pp],
    next: Prepared,
    patience: &mut Patience,
) -> Result<(), CommitFault>
    requires settled { IsSettled driver.old.1 }
    requires may { MayAdd driver.old.1 added.now next }
    ensures ends { AddEnds added.now next patience.old.left (state_of S.device driver.old) (state_of S.device driver.new) result }
    ensures held { IfOn (command_answer result) (StillHeld (state_of S.device driver.old) (state_of S.device driver.new)) }
    ensures fresh { IfOn (command_answer result) (KeepsFresh (state_of S.device driver.old) (state_of S.device driver.new)) }
    ensures leaves { Leaves (adding added.now next 2) patience.old.left patience.new.left (state_of S.device driver.old) (state_of S.device driver.new) }
{
    driver.set_status(added, &[], patience)?;
    driver.commit(next, patience)
}
