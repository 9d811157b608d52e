//! One member leaves a group that is on.
ghost use Rattle.std.specs.Prelude.{◌≡◌, ◌≤◌, ◌<◌, ◌+◌, ◌*◌, ℕ, List, [], ◌∷◌, length, false, IfSome, IfNone, IsTrue};
ghost use Rattle.lvm_num.specs.Descriptor.{is_member};
ghost use Rattle.lvm_disk.specs.Device.{IsReady};
ghost use Rattle.lvm_vol.specs.Log.{spare_entries};
ghost use Rattle.lvm_write.specs.Written.{HasRoom};
ghost use Rattle.lvm_core.specs.State.{state_of};
ghost use Rattle.lvm_core.specs.Leaves.{NoDescriptor};
ghost use Rattle.lvm_core.specs.Settled.{IsSettled, HasSpareNumbers};
ghost use Rattle.lvm_volume_plan.specs.PlannedVolume.{AreOfOneGroup};
ghost use Rattle.lvm_turnover.specs.Changing.{LeavesWithin};
ghost use Rattle.lvm_member_plan.specs.Descriptors.{IsReducedBy};
ghost use Rattle.lvm_member_steps.specs.Steps.{LeavesIf, StepEnds};
ghost use Rattle.lvm_reduce.specs.Departures.{CanDepart, IsTurnFrom, IsWayOut, IsMarked, IsUnmarked, IsOnShelf, HasNumbersFor, ShowsIfMarked, TidyEnds, CloseEnds, DepartEnds, changes_of, next_of};

use crate::departure::{Departure, Mark};
use crate::erasing::erase;
use lvm_core::below::Patience;
use lvm_core::{CommandDriver, CommitFault};
use lvm_disk::Shelf;
use lvm_member_steps::step;
use lvm_num::Kind;
use lvm_status::members_there;
use lvm_turnover::Change;

/// Takes a member out of the group that is on. It takes no memory.
pub(crate) fn depart<S: Shelf>(
    driver: CommandDriver<S>,
    departure: Departure,
    patience: &mut Patience,
) -> (CommandDriver<S>, Result<(), CommitFault>)
    requires settled { IsSettled driver.1 }
    requires group { AreOfOneGroup driver.1 }
    requires ready { IsReady (S.device driver.0) }
    requires numbers { HasNumbersFor 2 driver.1 }
    requires spare { 1 ≤ spare_entries driver.1.history }
    requires departs { CanDepart driver.1.descriptor departure }
    ensures ends { DepartEnds departure.disk departure.out.leaving patience.old.left (state_of S.device driver) (state_of S.device result.0) result.1 }
    ensures leaves { LeavesWithin 6 (IsReducedBy (departure.disk ∷ []) driver.1.descriptor) [] (departure.disk ∷ []) patience.old.left patience.new.left (state_of S.device driver) (state_of S.device result.0) }
{
    let Departure {
        disk,
        before,
        out,
        after,
    } = departure;
    let (driver, answer) = change_if(driver, before, patience);
    match answer {
        Ok(()) => leave(driver, disk, out, after, patience),
        Err(why) => (driver, Err(why)),
    }
}

// Takes it out of a group that is ready for it.
fn leave<S: Shelf>(
    driver: CommandDriver<S>,
    disk: u16,
    out: Change,
    after: Option<Change>,
    patience: &mut Patience,
) -> (CommandDriver<S>, Result<(), CommitFault>)
    requires settled { IsSettled driver.1 }
    requires group { AreOfOneGroup driver.1 }
    requires ready { IsReady (S.device driver.0) }
    requires numbers { HasNumbersFor (1 + changes_of after) driver.1 }
    requires spare { 1 ≤ spare_entries driver.1.history }
    requires way { IsWayOut disk driver.1.descriptor out after }
    ensures ends { DepartEnds disk out.leaving patience.old.left (state_of S.device driver) (state_of S.device result.0) result.1 }
    ensures leaves { LeavesWithin (3 + 3 * changes_of after) (IsReducedBy (disk ∷ []) driver.1.descriptor) [] (disk ∷ []) patience.old.left patience.new.left (state_of S.device driver) (state_of S.device result.0) }
{
    let (driver, mark) = mark_of(driver, disk);
    let (driver, answer) = step(driver, out, patience);
    match answer {
        Ok(()) => close(driver, disk, mark, after, patience),
        Err(why) => (driver, Err(why)),
    }
}

// Goes on once it has left: the two that stay are even no more, and its disk is taken care of.
fn close<S: Shelf>(
    driver: CommandDriver<S>,
    disk: u16,
    mark: Option<Mark>,
    after: Option<Change>,
    patience: &mut Patience,
) -> (CommandDriver<S>, Result<(), CommitFault>)
    requires settled { IsSettled driver.1 }
    requires group { AreOfOneGroup driver.1 }
    requires ready { IsReady (S.device driver.0) }
    requires numbers { HasNumbersFor (changes_of after) driver.1 }
    requires spare { 1 ≤ spare_entries driver.1.history }
    requires stranger { is_member driver.1.descriptor disk ≡ false }
    requires after { IfSome after (IsTurnFrom driver.1.descriptor) }
    requires marked { IfSome mark (IsOnShelf disk (state_of S.device driver)) }
    ensures ends { CloseEnds disk mark (next_of after driver.1.descriptor) patience.old.left (state_of S.device driver) (state_of S.device result.0) result.1 }
    ensures leaves { LeavesIf (ShowsIfMarked disk mark (state_of S.device driver)) (3 * changes_of after) (IsReducedBy (disk ∷ []) driver.1.descriptor) (disk ∷ []) patience.old.left patience.new.left (state_of S.device driver) (state_of S.device result.0) }
{
    let (driver, answer) = change_if(driver, after, patience);
    match answer {
        Ok(()) => tidy(driver, disk, mark, patience),
        Err(why) => (driver, Err(why)),
    }
}

// Makes a change by which no member leaves, if there is one.
fn change_if<S: Shelf>(
    driver: CommandDriver<S>,
    change: Option<Change>,
    patience: &mut Patience,
) -> (CommandDriver<S>, Result<(), CommitFault>)
    requires settled { IsSettled driver.1 }
    requires group { AreOfOneGroup driver.1 }
    requires ready { IsReady (S.device driver.0) }
    requires numbers { HasNumbersFor (changes_of change) driver.1 }
    requires turn { IfSome change (IsTurnFrom driver.1.descriptor) }
    ensures ends { StepEnds None (next_of change driver.1.descriptor) patience.old.left (state_of S.device driver) (state_of S.device result.0) result.1 }
    ensures leaves { (disks : List ℕ) → LeavesWithin (3 * changes_of change) (IsReducedBy disks driver.1.descriptor) [] [] patience.old.left patience.new.left (state_of S.device driver) (state_of S.device result.0) }
{
    match change {
        Some(change) => step(driver, change, patience),
        None => (driver, Ok(())),
    }
}

// What there is of a member that isn't missing.
fn mark_of<S: Shelf>(driver: CommandDriver<S>, disk: u16) -> (CommandDriver<S>, Option<Mark>)
    requires settled { IsSettled driver.1 }
    requires member { IsTrue (is_member driver.1.descriptor disk) }
    ensures shelf { result.0.0 ≡ driver.0 }
    ensures core { result.0.1 ≡ driver.1 }
    ensures some { IfSome result.1 (IsMarked disk (state_of S.device driver)) }
    ensures none { IfNone result.1 (IsUnmarked disk (state_of S.device driver)) }
{
    let there = members_there(driver.descriptor(), driver.table());
    if !there.has(disk) {
        return (driver, None);
    }
    let (shelf, session) = driver.into_parts();
    let faults = shelf.faults(disk);
    let second_is_older = !session.homes.is_second(Kind::Descriptor, disk);
    let driver = CommandDriver::from_parts(shelf, session);
    if faults == u64::MAX {
        return (driver, None);
    }
    (
        driver,
        Some(Mark {
            faults,
            second_is_older,
        }),
    )
}

// Erases the disk, where it is marked and no transfer to it has failed since.
fn tidy<S: Shelf>(
    driver: CommandDriver<S>,
    disk: u16,
    mark: Option<Mark>,
    patience: &mut Patience,
) -> (CommandDriver<S>, Result<(), CommitFault>)
    requires settled { IsSettled driver.1 }
    requires ready { IsReady (S.device driver.0) }
    requires spare { 1 ≤ spare_entries driver.1.history }
    requires stranger { is_member driver.1.descriptor disk ≡ false }
    requires marked { IfSome mark (IsOnShelf disk (state_of S.device driver)) }
    ensures ends { TidyEnds disk mark patience.old.left (state_of S.device driver) (state_of S.device result.0) result.1 }
    ensures leaves { LeavesIf (ShowsIfMarked disk mark (state_of S.device driver)) 0 NoDescriptor (disk ∷ []) patience.old.left patience.new.left (state_of S.device driver) (state_of S.device result.0) }
{
    let Some(mark) = mark else {
        return (driver, Ok(()));
    };
    let (driver, faults) = faults_of(driver, disk);
    if faults != mark.faults {
        return (driver, Ok(()));
    }
    erase(driver, disk, mark.second_is_older, patience)
}

// How many transfers of a disk have failed.
fn faults_of<S: Shelf>(driver: CommandDriver<S>, disk: u16) -> (CommandDriver<S>, u64)
    requires { disk < length (S.device driver.0).sizes }
    ensures shelf { result.0.0 ≡ driver.0 }
    ensures core { result.0.1 ≡ driver.1 }
    ensures faults { result.1 ≡ (S.device driver.0).counts.faults disk }
{
    let (shelf, session) = driver.into_parts();
    let faults = shelf.faults(disk);
    (CommandDriver::from_parts(shelf, session), faults)
}
