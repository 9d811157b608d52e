//! One turn of a group on its way, where the votes are enough for it.
ghost use Rattle.std.specs.Prelude.{◌≡◌, []};
ghost use Rattle.lvm_disk.specs.Device.{IsReady};
ghost use Rattle.lvm_session.specs.declared.open.Power.TheVariants as power;
ghost use Rattle.lvm_volume_plan.specs.PlannedVolume.{AreOfOneGroup};
ghost use Rattle.lvm_core.specs.State.{state_of};
ghost use Rattle.lvm_core.specs.Settled.{IsSettled, HasSpareNumbers};
ghost use Rattle.lvm_turnover.specs.Changing.{IsNext, LeavesWithin};
ghost use Rattle.lvm_turnover.specs.Turning.{IsPrepared, ShowsGone, disks_leaving};
ghost use Rattle.lvm_member_plan.specs.Steps.{IsStep};
ghost use Rattle.lvm_member_steps.specs.Steps.{StepEnds};

use lvm_core::below::Patience;
use lvm_core::{CommandDriver, CommitFault};
use lvm_disk::Shelf;
use lvm_member_plan::few_votes;
use lvm_session::Power;
use lvm_status::members_there;
use lvm_turnover::{Change, turn_group};

/// Turns a group to its next descriptor. Where the members that aren't missing have too few votes to write by it, nothing is written, and the session goes off.
pub fn step<S: Shelf>(
    driver: CommandDriver<S>,
    change: Change,
    patience: &mut Patience,
) -> (CommandDriver<S>, Result<(), CommitFault>)
    requires settled { IsSettled driver.1 }
    requires group { AreOfOneGroup driver.1 }
    requires ready { IsReady (S.device driver.0) }
    requires numbers { HasSpareNumbers driver.1 }
    requires prepared { IsPrepared change }
    requires step { IsStep (disks_leaving change.leaving) driver.1.descriptor change.next }
    ensures ends { StepEnds change.leaving change.next patience.old.left (state_of S.device driver) (state_of S.device result.0) result.1 }
    ensures shown { ShowsGone change.next (state_of S.device driver) (state_of S.device result.0) result.1 }
    ensures leaves { LeavesWithin 3 (IsNext change.next) [] (disks_leaving change.leaving) patience.old.left patience.new.left (state_of S.device driver) (state_of S.device result.0) }
{
    let there = members_there(driver.descriptor(), driver.table());
    match few_votes(&change.next, there) {
        Some((have, total)) => (gone_off(driver), Err(CommitFault::WentOff { have, total })),
        None => turn_group(driver, change, patience),
    }
}

// The session goes off, and nothing else changes.
fn gone_off<S: Shelf>(driver: CommandDriver<S>) -> CommandDriver<S>
    requires settled { IsSettled driver.1 }
    ensures shelf { result.0 ≡ driver.0 }
    ensures core { result.1 ≡ record driver.1 { power = power.Off } }
{
    let (shelf, mut session) = driver.into_parts();
    session.power = Power::Off;
    CommandDriver::from_parts(shelf, session)
}
