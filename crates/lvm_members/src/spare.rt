//! A member of a group comes to be a spare, or to be none any more.
ghost use Rattle.std.specs.Prelude.{◌≡◌, [], IfOk, IfErr, IsTrue};
ghost use Rattle.lvm_num.specs.Descriptor.{is_member};
ghost use Rattle.lvm_core.specs.State.{state_of};
ghost use Rattle.lvm_core.specs.Settled.{IsSettled};
ghost use Rattle.lvm_change.specs.Spare.{with_spare};
ghost use Rattle.lvm_turnover.specs.Changing.{IsNext, ChangeLeaves};
ghost use Rattle.lvm_turnover.specs.Turning.{IsReady};
ghost use Rattle.lvm_volume_plan.specs.Faults.{TakesCommands};
ghost use Rattle.lvm_volume_plan.specs.PlannedVolume.{AreOfOneGroup};
ghost use Rattle.lvm_volumes.specs.Endings.{StillHeld, KeepsFresh};
ghost use Rattle.lvm_members.specs.Commands.{IsOfRecords};
ghost use Rattle.lvm_members.specs.Spares.{IfMarkedOn, IsMarkedAs, IsSpareAnswer, IsSparePlan, MayBeMarked, RefusesAll, RefusesSpare, SpareEnds, SpareGives};

use lvm_change::with_spare;
use lvm_core::below::Patience;
use lvm_core::{CommandDriver, CommitFault};
use lvm_disk::Shelf;
use lvm_member_plan::is_used;
use lvm_num::Memory;
use lvm_turnover::{Change, make_change};
use lvm_volume_plan::{GroupFault, has_room, takes_commands};
use std::alloc::Global;

/// Why a member didn't come to be a spare, or none.
#[derive(Clone, Copy, Drop)]
pub enum SpareFault {
    /// The power was cut, and is off.
    Dark,
    /// The members that aren't missing, or those that were reached, have so many votes of so many, too few to write.
    WentOff { have: u32, total: u32 },
    /// A request is open.
    Busy,
    /// It was to be a spare, and a volume has a partition on its disk, which is carried.
    DiskInUse { disk: u16 },
    /// The history has few entries to spare, or the session few sequence numbers left.
    HistoryFull,
    /// Nothing was heard of a transfer until the patience had run out.
    Stuck,
    /// Want of memory.
    Memory,
}

/// A group after a command that was to make a member a spare, or none, and what that answered.
#[derive(Drop)]
pub struct Marked<S: Shelf> {
    pub driver: CommandDriver<S>,
    pub answer: Result<(), SpareFault>,
}

/// Makes a member of the group that is on a spare, or none: a status is committed and then the next descriptor. A spare takes no copies of new volumes, and no
/// further copies of others; it votes as the others do. All memory is taken before the first write.
///
/// The causes, in their order: `Dark` and `WentOff`, where the session is over; `Busy`, where a request is open; `DiskInUse`, where it is to be a spare and a volume
/// has a partition on it; `HistoryFull`, with fewer than two entries to spare or than 65,536 sequence numbers; and from the first write on `Dark`, `WentOff` and
/// `Stuck`. `Memory` may come before the first write, where nothing else stands against it.
pub fn set_spare<S: Shelf>(
    alloc: Global,
    driver: CommandDriver<S>,
    disk: u16,
    on: bool,
    patience: &mut Patience,
) -> Marked<S>
    requires member { IsTrue (is_member driver.1.descriptor disk) }
    // where nothing is open, nothing is under way
    requires settled { TakesCommands driver.1 → IsSettled driver.1 }
    ensures gives { SpareGives disk on patience.old.left (state_of S.device driver) (state_of S.device result.driver) result.answer }
    ensures settled { TakesCommands driver.1 → IfMarkedOn result.answer (IsSettled result.driver.1) }
    ensures held { IfMarkedOn result.answer (StillHeld (state_of S.device driver) (state_of S.device result.driver)) }
    ensures fresh { IfMarkedOn result.answer (KeepsFresh (state_of S.device driver) (state_of S.device result.driver)) }
    // whatever the answer
    ensures leaves { ChangeLeaves (IsNext (with_spare disk on driver.1.descriptor)) [] [] patience.old.left patience.new.left (state_of S.device driver) (state_of S.device result.driver) }
{
    match plan_spare(alloc, &driver, disk, on) {
        Ok(next) => mark(driver, next, patience),
        Err(fault) => Marked {
            driver,
            answer: Err(fault),
        },
    }
}

// The change by which it comes to be one, or none, unless something stands against it.
fn plan_spare<S: Shelf>(
    alloc: Global,
    driver: &CommandDriver<S>,
    disk: u16,
    on: bool,
) -> Result<Change, SpareFault>
    requires settled { TakesCommands driver.now.1 → IsSettled driver.now.1 }
    ensures planned { IfOk result (IsSparePlan disk on driver.now.1) }
    ensures refused { IfErr result (RefusesSpare disk on driver.now.1) }
{
    can_mark(driver)?;
    check_spare(driver, disk, on)?;
    prepare(alloc, driver, disk, on)
}

// Whether the session takes a command.
fn can_mark<S: Shelf>(driver: &CommandDriver<S>) -> Result<(), SpareFault>
    ensures takes { IfOk result (λ done. TakesCommands driver.now.1) }
    ensures group { IfOk result (λ done. AreOfOneGroup driver.now.1) }
    ensures refused { IfErr result (RefusesAll driver.now.1) }
{
    match takes_commands(driver) {
        Ok(()) => Ok(()),
        Err(GroupFault::Dark) => Err(SpareFault::Dark),
        Err(GroupFault::WentOff { have, total }) => Err(SpareFault::WentOff { have, total }),
        Err(GroupFault::Busy) => Err(SpareFault::Busy),
        Err(_) => unreachable!(),
    }
}

// What stands against it on a session that takes commands.
fn check_spare<S: Shelf>(driver: &CommandDriver<S>, disk: u16, on: bool) -> Result<(), SpareFault>
    requires takes { TakesCommands driver.now.1 }
    ensures may { IfOk result (λ done. MayBeMarked disk on driver.now.1) }
    ensures refused { IfErr result (RefusesSpare disk on driver.now.1) }
{
    if on && is_used(driver.descriptor(), disk) {
        Err(SpareFault::DiskInUse { disk })
    } else if has_room(driver) {
        Ok(())
    } else {
        Err(SpareFault::HistoryFull)
    }
}

// All memory that it takes.
fn prepare<S: Shelf>(
    alloc: Global,
    driver: &CommandDriver<S>,
    disk: u16,
    on: bool,
) -> Result<Change, SpareFault>
    requires group { AreOfOneGroup driver.now.1 }
    requires may { MayBeMarked disk on driver.now.1 }
    ensures planned { IfOk result (IsSparePlan disk on driver.now.1) }
    ensures refused { IfErr result (RefusesSpare disk on driver.now.1) }
{
    let next = match with_spare(alloc, driver.descriptor(), disk, on) {
        Ok(next) => next,
        Err(Memory) => return Err(SpareFault::Memory),
    };
    match Change::new(alloc, driver.table(), next) {
        Ok(change) => Ok(change),
        Err(Memory) => Err(SpareFault::Memory),
    }
}

// Turns a group to its next descriptor, by which other members are spares.
fn mark<S: Shelf>(driver: CommandDriver<S>, next: Change, patience: &mut Patience) -> Marked<S>
    requires settled { IsSettled driver.1 }
    requires marked { IsMarkedAs next.next driver.1 }
    requires ready { IsReady next }
    ensures ends { SpareEnds next.next patience.old.left (state_of S.device driver) (state_of S.device result.driver) result.answer }
    ensures settled { IfMarkedOn result.answer (IsSettled result.driver.1) }
    ensures held { IfMarkedOn result.answer (StillHeld (state_of S.device driver) (state_of S.device result.driver)) }
    ensures fresh { IfMarkedOn result.answer (KeepsFresh (state_of S.device driver) (state_of S.device result.driver)) }
    // whatever the answer
    ensures leaves { ChangeLeaves (IsNext next.next) [] [] patience.old.left patience.new.left (state_of S.device driver) (state_of S.device result.driver) }
{
    let (driver, answer) = make_change(driver, next, patience);
    let told = answer_of(answer);
    Marked {
        driver,
        answer: told,
    }
}

// So the command answers.
fn answer_of(answer: Result<(), CommitFault>) -> Result<(), SpareFault>
    requires { IfErr answer IsOfRecords }
    ensures { IsSpareAnswer answer result }
{
    match answer {
        Ok(()) => Ok(()),
        Err(CommitFault::Dark) => Err(SpareFault::Dark),
        Err(CommitFault::WentOff { have, total }) => Err(SpareFault::WentOff { have, total }),
        Err(CommitFault::Stuck) => Err(SpareFault::Stuck),
        Err(CommitFault::DiskFailed { .. }) => unreachable!(),
    }
}
