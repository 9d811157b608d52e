//! Quorum checking of a group is switched on or off, or it becomes big.
ghost use Rattle.std.specs.Prelude.{◌≡◌, [], IfErr};
ghost use Rattle.lvm_core.specs.State.{state_of};
ghost use Rattle.lvm_core.specs.Settled.{IsSettled};
ghost use Rattle.lvm_change.specs.Rule.{with_quorum, as_big};
ghost use Rattle.lvm_turnover.specs.Changing.{IsNext, ChangeLeaves};
ghost use Rattle.lvm_turnover.specs.Turning.{IsReady};
ghost use Rattle.lvm_volume_plan.specs.PlannedVolume.{AreOfOneGroup};
ghost use Rattle.lvm_volume_plan.specs.Faults.{TakesCommands};
ghost use Rattle.lvm_volumes.specs.Endings.{StillHeld, KeepsFresh};
ghost use Rattle.lvm_members.specs.Commands.{MayBeChanged, RuleGives, BigGives, NothingGives, IsOfRecords, IsAnswerOf, IfOn};

use crate::fault::{RuleFault, rule_fault};
use crate::plan::{Plan, can_take, plan_big, plan_quorum};
use lvm_core::below::Patience;
use lvm_core::{CommandDriver, CommitFault, Prepared};
use lvm_disk::Shelf;
use lvm_turnover::{Change, make_change};
use lvm_volume_plan::has_room;
use std::alloc::Global;

/// A group after a command that was to change it, and what that answered.
#[derive(Drop)]
pub struct Changed<S: Shelf> {
    pub driver: CommandDriver<S>,
    pub answer: Result<(), RuleFault>,
}

/// Switches quorum checking of the group that is on on or off: a status is committed and then the next descriptor, each by the votes of both descriptors, by
/// which two members are even no more. Where nothing differs the descriptor is written once more. All memory is taken before the first write.
///
/// The causes, in their order: `Dark` and `WentOff`, where the session is over; `Busy`, where a request is open; `NoQuorum`, where by the next rule the members
/// that aren't missing have too few votes to write, or where checking is switched off and a member is missing; `HistoryFull`, with fewer than two entries to
/// spare or than 65,536 sequence numbers; and from the first write on `Dark`, `WentOff` and `Stuck`. `Memory` may come before the first write, where the
/// session takes a command.
pub fn set_quorum<S: Shelf>(
    alloc: Global,
    driver: CommandDriver<S>,
    on: bool,
    patience: &mut Patience,
) -> Changed<S>
    // where nothing is open, nothing is under way
    requires settled { TakesCommands driver.1 → IsSettled driver.1 }
    ensures gives { RuleGives (with_quorum on driver.1.descriptor) patience.old.left (state_of S.device driver) (state_of S.device result.driver) result.answer }
    ensures settled { TakesCommands driver.1 → IfOn result.answer (IsSettled result.driver.1) }
    ensures held { IfOn result.answer (StillHeld (state_of S.device driver) (state_of S.device result.driver)) }
    ensures fresh { IfOn result.answer (KeepsFresh (state_of S.device driver) (state_of S.device result.driver)) }
    // whatever the answer
    ensures leaves { ChangeLeaves (IsNext (with_quorum on driver.1.descriptor)) [] [] patience.old.left patience.new.left (state_of S.device driver) (state_of S.device result.driver) }
{
    match plan_quorum(alloc, &driver, on) {
        Ok(Plan::Turn(next)) => by_turn(driver, next, patience),
        Ok(Plan::Same(next)) => by_commit(driver, next, patience),
        Err(fault) => Changed {
            driver,
            answer: Err(fault),
        },
    }
}

/// Makes a group that is on a big one, with up to 128 members and 511 volumes, by a status and a descriptor as `set_quorum` does. One that is big stays as it
/// is. All memory is taken before the first write.
///
/// The causes are those of `set_quorum`, but for `NoQuorum`: the votes stay as they are.
pub fn make_big<S: Shelf>(
    alloc: Global,
    driver: CommandDriver<S>,
    patience: &mut Patience,
) -> Changed<S>
    // where nothing is open, nothing is under way
    requires settled { TakesCommands driver.1 → IsSettled driver.1 }
    ensures gives { BigGives patience.old.left (state_of S.device driver) (state_of S.device result.driver) result.answer }
    ensures settled { TakesCommands driver.1 → IfOn result.answer (IsSettled result.driver.1) }
    ensures held { IfOn result.answer (StillHeld (state_of S.device driver) (state_of S.device result.driver)) }
    ensures fresh { IfOn result.answer (KeepsFresh (state_of S.device driver) (state_of S.device result.driver)) }
    // whatever the answer
    ensures leaves { ChangeLeaves (IsNext (as_big driver.1.descriptor)) [] [] patience.old.left patience.new.left (state_of S.device driver) (state_of S.device result.driver) }
{
    if driver.descriptor().big {
        let answer = stays(&driver);
        return Changed { driver, answer };
    }
    match plan_big(alloc, &driver) {
        Ok(Plan::Turn(next)) => by_turn(driver, next, patience),
        Ok(Plan::Same(next)) => by_commit(driver, next, patience),
        Err(fault) => Changed {
            driver,
            answer: Err(fault),
        },
    }
}

// What stands against a command that does nothing.
fn stays<S: Shelf>(driver: &CommandDriver<S>) -> Result<(), RuleFault>
    requires settled { TakesCommands driver.now.1 → IsSettled driver.now.1 }
    ensures { NothingGives (state_of S.device driver.now) (state_of S.device driver.now) result }
{
    can_take(driver)?;
    if has_room(driver) {
        Ok(())
    } else {
        Err(RuleFault::HistoryFull)
    }
}

// Turns a group to its next descriptor.
fn by_turn<S: Shelf>(driver: CommandDriver<S>, next: Change, patience: &mut Patience) -> Changed<S>
    requires settled { IsSettled driver.1 }
    requires group { AreOfOneGroup driver.1 }
    requires may { MayBeChanged next.next driver.1 }
    requires ready { IsReady next }
    ensures gives { RuleGives next.next patience.old.left (state_of S.device driver) (state_of S.device result.driver) result.answer }
    ensures settled { IfOn result.answer (IsSettled result.driver.1) }
    ensures held { IfOn result.answer (StillHeld (state_of S.device driver) (state_of S.device result.driver)) }
    ensures fresh { IfOn result.answer (KeepsFresh (state_of S.device driver) (state_of S.device result.driver)) }
    // whatever the answer
    ensures leaves { ChangeLeaves (IsNext next.next) [] [] patience.old.left patience.new.left (state_of S.device driver) (state_of S.device result.driver) }
{
    let (driver, answer) = make_change(driver, next, patience);
    let told = answer_of(answer);
    Changed {
        driver,
        answer: told,
    }
}

// Writes a group's descriptor once more.
fn by_commit<S: Shelf>(
    driver: CommandDriver<S>,
    next: Prepared,
    patience: &mut Patience,
) -> Changed<S>
    requires settled { IsSettled driver.1 }
    requires group { AreOfOneGroup driver.1 }
    requires may { MayBeChanged next driver.1 }
    requires same { next ≡ driver.1.descriptor }
    ensures gives { RuleGives next patience.old.left (state_of S.device driver) (state_of S.device result.driver) result.answer }
    ensures settled { IfOn result.answer (IsSettled result.driver.1) }
    ensures held { IfOn result.answer (StillHeld (state_of S.device driver) (state_of S.device result.driver)) }
    ensures fresh { IfOn result.answer (KeepsFresh (state_of S.device driver) (state_of S.device result.driver)) }
    // whatever the answer
    ensures leaves { ChangeLeaves (IsNext next) [] [] patience.old.left patience.new.left (state_of S.device driver) (state_of S.device result.driver) }
{
    let mut driver = driver;
    let answer = driver.commit(next, patience);
    let told = answer_of(answer);
    Changed {
        driver,
        answer: told,
    }
}

// So the command answers.
fn answer_of(answer: Result<(), CommitFault>) -> Result<(), RuleFault>
    requires { IfErr answer IsOfRecords }
    ensures { IsAnswerOf answer result }
{
    match answer {
        Ok(()) => Ok(()),
        Err(fault) => Err(rule_fault(fault)),
    }
}
