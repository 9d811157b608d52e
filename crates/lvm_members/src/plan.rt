//! What stands against a change of a group's rule of votes or of its size, and what it is made by.
ghost use Rattle.std.specs.Prelude.{◌≡◌, IfOk, IfErr};
ghost use Rattle.lvm_num.specs.declared.descriptor.Descriptor.{Descriptor as Group};
ghost use Rattle.lvm_num.specs.Descriptor.{IsValid};
ghost use Rattle.lvm_core.specs.Settled.{IsSettled};
ghost use Rattle.lvm_change.specs.Rule.{with_quorum, as_big};
ghost use Rattle.lvm_change_laws.specs.Rule.{DiffersInRule};
ghost use Rattle.lvm_volume_plan.specs.Faults.{TakesCommands};
ghost use Rattle.lvm_volume_plan.specs.PlannedVolume.{AreOfOneGroup};
ghost use Rattle.lvm_members.specs.Commands.{MayBeChanged, RefusesChange, IsPlanFor};

use crate::fault::RuleFault;
use lvm_change::{as_big, few_votes_for, with_quorum};
use lvm_core::{CommandDriver, Prepared};
use lvm_disk::Shelf;
use lvm_num::{Descriptor, Memory};
use lvm_status::members_there;
use lvm_turnover::Change;
use lvm_volume_plan::{GroupFault, has_room, takes_commands};
use std::alloc::Global;

/// By what a group comes to its next descriptor. All memory is taken with it.
#[derive(Drop)]
pub enum Plan {
    /// It turns to it.
    Turn(Change),
    /// Nothing differs: the descriptor is written once more.
    Same(Prepared),
}

/// That of quorum checking on or off, unless something stands against it.
pub(crate) fn plan_quorum<S: Shelf>(
    alloc: Global,
    driver: &CommandDriver<S>,
    on: bool,
) -> Result<Plan, RuleFault>
    requires settled { TakesCommands driver.now.1 → IsSettled driver.now.1 }
    ensures planned { IfOk result (IsPlanFor (with_quorum on driver.now.1.descriptor) driver.now.1) }
    ensures refused { IfErr result (RefusesChange (with_quorum on driver.now.1.descriptor) driver.now.1) }
{
    can_take(driver)?;
    let group = driver.descriptor();
    let next = match with_quorum(alloc, group, on) {
        Ok(next) => next,
        Err(Memory) => return Err(RuleFault::Memory),
    };
    check(driver, &next)?;
    if group.quorum == on && !group.even {
        restate(alloc, driver, next)
    } else {
        turn(alloc, driver, next)
    }
}

/// That of a group that becomes big, unless something stands against it.
pub(crate) fn plan_big<S: Shelf>(
    alloc: Global,
    driver: &CommandDriver<S>,
) -> Result<Plan, RuleFault>
    requires settled { TakesCommands driver.now.1 → IsSettled driver.now.1 }
    ensures planned { IfOk result (IsPlanFor (as_big driver.now.1.descriptor) driver.now.1) }
    ensures refused { IfErr result (RefusesChange (as_big driver.now.1.descriptor) driver.now.1) }
{
    can_take(driver)?;
    let next = match as_big(alloc, driver.descriptor()) {
        Ok(next) => next,
        Err(Memory) => return Err(RuleFault::Memory),
    };
    check(driver, &next)?;
    turn(alloc, driver, next)
}

/// Whether the session takes a command.
pub(crate) fn can_take<S: Shelf>(driver: &CommandDriver<S>) -> Result<(), RuleFault>
    ensures takes { IfOk result (λ done. TakesCommands driver.now.1) }
    ensures group { IfOk result (λ done. AreOfOneGroup driver.now.1) }
    ensures refused { IfErr result (λ why. (next : Group) → RefusesChange next driver.now.1 why) }
{
    match takes_commands(driver) {
        Ok(()) => Ok(()),
        Err(GroupFault::Dark) => Err(RuleFault::Dark),
        Err(GroupFault::WentOff { have, total }) => Err(RuleFault::WentOff { have, total }),
        Err(GroupFault::Busy) => Err(RuleFault::Busy),
        Err(_) => unreachable!(),
    }
}

// What stands against the change to a descriptor on a session that takes commands.
fn check<S: Shelf>(driver: &CommandDriver<S>, next: &Descriptor) -> Result<(), RuleFault>
    requires takes { TakesCommands driver.now.1 }
    requires settled { IsSettled driver.now.1 }
    requires valid { IsValid next.now }
    requires differs { DiffersInRule driver.now.1.descriptor next.now }
    ensures may { IfOk result (λ done. MayBeChanged next.now driver.now.1) }
    ensures refused { IfErr result (RefusesChange next.now driver.now.1) }
{
    let group = driver.descriptor();
    let there = members_there(group, driver.table());
    if let Some(votes) = few_votes_for(group, next, there) {
        return Err(RuleFault::NoQuorum {
            have: votes.have,
            total: votes.total,
        });
    }
    if !has_room(driver) {
        return Err(RuleFault::HistoryFull);
    }
    Ok(())
}

// A turn to the next descriptor.
fn turn<S: Shelf>(
    alloc: Global,
    driver: &CommandDriver<S>,
    next: Descriptor,
) -> Result<Plan, RuleFault>
    requires valid { IsValid next }
    requires group { AreOfOneGroup driver.now.1 }
    requires may { MayBeChanged next driver.now.1 }
    ensures planned { IfOk result (IsPlanFor next driver.now.1) }
    ensures refused { IfErr result (RefusesChange next driver.now.1) }
{
    match Change::new(alloc, driver.table(), next) {
        Ok(change) => Ok(Plan::Turn(change)),
        Err(Memory) => Err(RuleFault::Memory),
    }
}

// The descriptor once more.
fn restate<S: Shelf>(
    alloc: Global,
    driver: &CommandDriver<S>,
    next: Descriptor,
) -> Result<Plan, RuleFault>
    requires valid { IsValid next }
    requires group { AreOfOneGroup driver.now.1 }
    requires may { MayBeChanged next driver.now.1 }
    requires same { next ≡ driver.now.1.descriptor }
    ensures planned { IfOk result (IsPlanFor next driver.now.1) }
    ensures refused { IfErr result (RefusesChange next driver.now.1) }
{
    match driver.prepare(alloc, next) {
        Ok(prepared) => Ok(Plan::Same(prepared)),
        Err(Memory) => Err(RuleFault::Memory),
    }
}
