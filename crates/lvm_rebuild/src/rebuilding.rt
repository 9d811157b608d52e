//! The copies that stand on missing disks move to spares.
ghost use Rattle.std.specs.Prelude.{◌≡◌, ◌≢◌, None, IfErr, IfOk, is_some};
ghost use Rattle.lvm_num.specs.Descriptor.{IsValid};
ghost use Rattle.lvm_num.specs.declared.descriptor.Descriptor.{Descriptor};
ghost use Rattle.lvm_session.specs.declared.open.Power.TheVariants as power;
ghost use Rattle.lvm_session.specs.State.{state_of};
ghost use Rattle.lvm_migrate.specs.Committed.{GoesCommitting};
ghost use Rattle.lvm_migrate.specs.Migrating.{GoesBesideMoving};
ghost use Rattle.lvm_move_plan.specs.Standing.{StandsAmong, listed, standing_among};
ghost use Rattle.lvm_rebuild.specs.Choosing.{lost_copies, lost_members};
ghost use Rattle.lvm_rebuild.specs.Rebuilding.{AreRebuilt, IsGroupAfter, IsLeftShutBy, IsPlanned, RebuildCause, RebuildGives, RebuildsAll, RebuildsOne, StandRebuilt, busy_or_full, has_entries, is_busy, rebuild_refusal, unplaced};

use crate::choosing::{choose, has_numbers};
use crate::fault::RebuildFault;
use lvm_disk::Shelf;
use lvm_driver::Driver;
use lvm_migrate::{MoveFault, move_one};
use lvm_move_plan::{PlannedMove, VolumeCopy, standing_among};
use lvm_num::{Memory, Rows};
use lvm_session::{CopyState, Power};
use lvm_transfer::Patience;
use std::alloc::Global;

/// The members that are missing, and the copies that stand on them.
#[derive(Drop)]
pub struct RebuildPlan {
    pub lost: Rows<u16>,
    pub copies: Rows<VolumeCopy>,
}

// A copy or a request is open.
fn is_busy<S: Shelf>(driver: &Driver<S>) -> bool
    ensures { result ≡ is_busy driver.now.1 }
{
    has_copy(driver) || driver.open() > 0
}

fn has_copy<S: Shelf>(driver: &Driver<S>) -> bool
    ensures { result ≡ is_some driver.now.1.copy }
{
    match driver.copy_state() {
        CopyState::Closed => false,
        _ => true,
    }
}

fn has_entries<S: Shelf>(driver: &Driver<S>) -> bool
    ensures { result ≡ has_entries driver.now.1 }
{
    driver.history().spare_entries() >= 2
}

// Why a session that goes on rebuilds nothing.
fn refusal_on<S: Shelf>(driver: &Driver<S>) -> Option<MoveFault>
    ensures { result ≡ busy_or_full driver.now.1 }
{
    if is_busy(driver) {
        Some(MoveFault::Busy)
    } else if has_entries(driver) && has_numbers(driver) {
        None
    } else {
        Some(MoveFault::HistoryFull)
    }
}

// So it is where the session may be over.
fn refusal<S: Shelf>(driver: &Driver<S>) -> Option<MoveFault>
    ensures { result ≡ rebuild_refusal driver.now.1 }
{
    match driver.power() {
        Power::Dark => Some(MoveFault::Dark),
        Power::Off => {
            let (have, total) = driver.votes();
            Some(MoveFault::WentOff { have, total })
        }
        Power::On | Power::Stuck => refusal_on(driver),
    }
}

// The members that are missing.
fn lost_members<S: Shelf>(driver: &Driver<S>, alloc: Global) -> Result<Rows<u16>, Memory>
    ensures { IfOk result (λ lost. lost ≡ lost_members driver.now.1) }
{
    let mut lost = Vec::new(alloc);
    for row in driver.descriptor().pvs.as_slice() {
        if driver.is_missing(row.disk) {
            lost.push(row.disk)?;
        }
    }
    Ok(Rows::new(lost))
}

// What is to be rebuilt.
fn list<S: Shelf>(driver: &Driver<S>, alloc: Global) -> Result<RebuildPlan, Memory>
    ensures lost { IfOk result (λ plan. plan.lost ≡ lost_members driver.now.1) }
    ensures copies { IfOk result (λ plan. plan.copies ≡ lost_copies driver.now.1) }
{
    let lost = lost_members(driver, alloc)?;
    let copies = standing_among(alloc, driver.descriptor(), None, lost.as_slice())?;
    Ok(RebuildPlan {
        lost,
        copies: Rows::new(copies),
    })
}

// That, unless something stands against it.
fn plan<S: Shelf>(driver: &Driver<S>, alloc: Global) -> Result<RebuildPlan, RebuildFault>
    ensures { IsPlanned driver.now.1 result }
{
    if let Some(why) = refusal(driver) {
        return Err(RebuildFault::Move(why));
    }
    match list(driver, alloc) {
        Ok(plan) => Ok(plan),
        Err(Memory) => Err(RebuildFault::Move(MoveFault::Memory)),
    }
}

// One copy moves to the partition that is chosen for it.
fn rebuild_one<S: Shelf>(
    driver: &mut Driver<S>,
    alloc: Global,
    lost: &[u16],
    copy: VolumeCopy,
    patience: &mut Patience,
) -> Result<(), RebuildFault>
    requires on { driver.old.1.power ≡ power.On }
    requires epoch { driver.old.1.status.stamp.epoch ≢ 0 }
    requires none { driver.old.1.copy ≡ None }
    requires stands { StandsAmong driver.old.1.descriptor None (listed lost.now) copy }
    ensures rebuilds { RebuildsOne lost.now copy patience.old.left patience.new.left (state_of S.device driver.old) (state_of S.device driver.new) result }
    ensures closed { IsLeftShutBy driver.new.1 result }
    ensures way { GoesCommitting (IsGroupAfter lost.now copy driver.old.1) (state_of S.device driver.old) (state_of S.device driver.new) }
    ensures stays { IfErr result (λ why. driver.new.1.descriptor ≡ driver.old.1.descriptor) }
    ensures caused { IfErr result (RebuildCause patience.old.left (state_of S.device driver.old) (state_of S.device driver.new)) }
    ensures beside { GoesBesideMoving (state_of S.device driver.old) (state_of S.device driver.new) patience.old.left patience.new.left }
{
    driver.is_sound();
    let to = choose(driver, lost, copy)?;
    match move_one(driver, alloc, PlannedMove { copy, to }, patience) {
        Ok(()) => Ok(()),
        Err(why) => Err(RebuildFault::Move(why)),
    }
}

// Each of them, in order.
fn rebuild_all<S: Shelf>(
    driver: &mut Driver<S>,
    alloc: Global,
    lost: &[u16],
    copies: &[VolumeCopy],
    patience: &mut Patience,
) -> Result<usize, RebuildFault>
    requires on { driver.old.1.power ≡ power.On }
    requires epoch { driver.old.1.status.stamp.epoch ≢ 0 }
    requires none { driver.old.1.copy ≡ None }
    requires copies { standing_among driver.old.1.descriptor None (listed lost.now) ≡ copies.now }
    ensures rebuilds { RebuildsAll lost.now copies.now patience.old.left patience.new.left (state_of S.device driver.old) (state_of S.device driver.new) result }
    ensures stand { StandRebuilt copies.now driver.old.1.descriptor driver.new.1.descriptor }
    ensures closed { IsLeftShutBy driver.new.1 result }
    ensures caused { IfErr result (RebuildCause patience.old.left (state_of S.device driver.old) (state_of S.device driver.new)) }
    ensures beside { GoesBesideMoving (state_of S.device driver.old) (state_of S.device driver.new) patience.old.left patience.new.left }
    ensures way { GoesCommitting (StandRebuilt copies.now driver.old.1.descriptor) (state_of S.device driver.old) (state_of S.device driver.new) }
{
    for copy in copies {
        driver.is_sound();
        rebuild_one(driver, alloc, lost, *copy, patience)?;
    }
    Ok(copies.len())
}

/// Moves the copies that stand on missing disks to spares, beside what is under way: in the order of volumes, their logical
/// partitions and their copies, each to the lowest free partition of the first spare that takes it then. That is one that isn't
/// missing, has no copy of the logical partition, and has a free partition. Fresh and stale copies are taken alike. Answers how many.
///
/// # Errors
///
/// Those of `RebuildFault`; those that have moved before stay moved. Nothing changes where none is begun.
pub fn rebuild<S: Shelf>(
    driver: &mut Driver<S>,
    alloc: Global,
    patience: &mut Patience,
) -> Result<usize, RebuildFault>
    requires unstuck { driver.old.1.power ≡ power.Stuck → ⊥ }
    requires epoch { driver.old.1.status.stamp.epoch ≢ 0 }
    ensures gives { RebuildGives patience.old.left patience.new.left (state_of S.device driver.old) (state_of S.device driver.new) result }
    ensures stand { StandRebuilt (lost_copies driver.old.1) driver.old.1.descriptor driver.new.1.descriptor }
    ensures alike { unplaced driver.new.1.descriptor ≡ unplaced driver.old.1.descriptor }
    ensures rebuilt { IfOk result (λ count. AreRebuilt (lost_members driver.old.1) (lost_copies driver.old.1) patience.old.left patience.new.left (state_of S.device driver.old) (state_of S.device driver.new)) }
    ensures closed { driver.old.1.copy ≡ None → IsLeftShutBy driver.new.1 result }
    ensures caused { IfErr result (RebuildCause patience.old.left (state_of S.device driver.old) (state_of S.device driver.new)) }
    ensures beside { GoesBesideMoving (state_of S.device driver.old) (state_of S.device driver.new) patience.old.left patience.new.left }
    ensures way { GoesCommitting (StandRebuilt (lost_copies driver.old.1) driver.old.1.descriptor) (state_of S.device driver.old) (state_of S.device driver.new) }
{
    driver.is_sound();
    let plan = plan(driver, alloc)?;
    rebuild_all(
        driver,
        alloc,
        plan.lost.as_slice(),
        plan.copies.as_slice(),
        patience,
    )
}
