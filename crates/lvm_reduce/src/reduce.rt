//! Members leave a group that is on.
ghost use Rattle.std.specs.Prelude.{◌≡◌, ◌≢◌, ◌≤◌, ◌*◌, [], length, AllPairs, IfOk};
ghost use Rattle.lvm_num.specs.Descriptor.{IsValid};
ghost use Rattle.lvm_disk.specs.Device.{IsReady};
ghost use Rattle.lvm_vol.specs.Log.{spare_entries};
ghost use Rattle.lvm_core.specs.State.{state_of};
ghost use Rattle.lvm_core.specs.Settled.{IsSettled};
ghost use Rattle.lvm_volume_plan.specs.Faults.{TakesCommands};
ghost use Rattle.lvm_volume_plan.specs.PlannedVolume.{AreOfOneGroup};
ghost use Rattle.lvm_volumes.specs.Endings.{StillHeld, KeepsFresh};
ghost use Rattle.lvm_turnover.specs.Changing.{ChangeLeaves, LeavesWithin};
ghost use Rattle.lvm_member_plan.specs.Descriptors.{IsReducedBy, reduced};
ghost use Rattle.lvm_member_plan.specs.Refusals.{MayReduce};
ghost use Rattle.lvm_member_plan.specs.Steps.{MayDepartAll};
ghost use Rattle.lvm_reduce.specs.Answers.{IfOn, IsAnswerOf, IsOfRecords, LeaveEnds, ReduceGives};
ghost use Rattle.lvm_reduce.specs.Departures.{AreDepartures, HasNumbersFor, disks_of};

use crate::departure::{Departure, plan_departure};
use crate::leaving::depart;
use lvm_core::below::Patience;
use lvm_core::{CommandDriver, CommitFault};
use lvm_disk::Shelf;
use lvm_member_plan::{ReduceFault, check, without_members};
use lvm_num::{Memory, clone_descriptor};
use lvm_session::Session;
use std::alloc::Global;

/// A group after members were to leave it, and what that answered.
#[derive(Drop)]
pub struct Reduced<S: Shelf> {
    pub driver: CommandDriver<S>,
    pub answer: Result<(), ReduceFault>,
}

/// Takes members out of the group that is on, one after the other: each by a status and a descriptor that are committed by the votes of the group with it
/// and without it, after which its disk loses the descriptor that it shows, where it isn't missing. A failure of that changes no answer. All memory is taken
/// before the first write.
///
/// The causes, in their order: `Dark` and `WentOff`, where the session is over; `Busy`, where a request is open; `NoDisk`, with the first disk named that is
/// no member; `LastDisk`, where all members are named; `DiskInUse`, with the first disk named on which a volume has a partition; `NoQuorum`, where by the last
/// descriptor the members that aren't missing have too few votes to write; `HistoryFull`, with fewer entries to spare than disks named or than 65,536 sequence
/// numbers; and from the first write on `Dark`, `WentOff` and `Stuck`. `WentOff` comes without a failed transfer too, where the members that aren't missing
/// have too few votes to write by a descriptor on the way. `Memory` may come before the first write, where the session takes a command.
pub fn reducevg<S: Shelf>(
    alloc: Global,
    driver: CommandDriver<S>,
    disks: &[u16],
    patience: &mut Patience,
) -> Reduced<S>
    requires settled { TakesCommands driver.1 → IsSettled driver.1 }
    requires some { 1 ≤ length disks.now }
    requires differ { AllPairs (λ a b. a ≢ b) disks.now }
    ensures gives { ReduceGives disks.now patience.old.left (state_of S.device driver) (state_of S.device result.driver) result.answer }
    ensures settled { TakesCommands driver.1 → IfOn result.answer (IsSettled result.driver.1) }
    ensures held { IfOn result.answer (StillHeld (state_of S.device driver) (state_of S.device result.driver)) }
    ensures fresh { IfOn result.answer (KeepsFresh (state_of S.device driver) (state_of S.device result.driver)) }
    // whatever the answer
    ensures leaves { ChangeLeaves (IsReducedBy disks.now driver.1.descriptor) [] disks.now patience.old.left patience.new.left (state_of S.device driver) (state_of S.device result.driver) }
{
    match check(alloc, &driver, disks) {
        Ok(()) => leave_all(alloc, driver, disks, patience),
        Err(fault) => Reduced {
            driver,
            answer: Err(fault),
        },
    }
}

// Takes the memory for it, and then the members out.
fn leave_all<S: Shelf>(
    alloc: Global,
    driver: CommandDriver<S>,
    disks: &[u16],
    patience: &mut Patience,
) -> Reduced<S>
    requires group { AreOfOneGroup driver.1 }
    requires may { MayReduce disks.now driver.1 }
    requires settled { IsSettled driver.1 }
    requires some { 1 ≤ length disks.now }
    requires differ { AllPairs (λ a b. a ≢ b) disks.now }
    ensures gives { ReduceGives disks.now patience.old.left (state_of S.device driver) (state_of S.device result.driver) result.answer }
    ensures settled { IfOn result.answer (IsSettled result.driver.1) }
    ensures held { IfOn result.answer (StillHeld (state_of S.device driver) (state_of S.device result.driver)) }
    ensures fresh { IfOn result.answer (KeepsFresh (state_of S.device driver) (state_of S.device result.driver)) }
    // whatever the answer
    ensures leaves { ChangeLeaves (IsReducedBy disks.now driver.1.descriptor) [] disks.now patience.old.left patience.new.left (state_of S.device driver) (state_of S.device result.driver) }
{
    let (driver, planned) = plan(alloc, driver, disks);
    match planned {
        Ok(departures) => {
            let (driver, answer) = depart_all(driver, departures, patience);
            Reduced {
                driver,
                answer: reduce_answer(answer),
            }
        }
        Err(Memory) => Reduced {
            driver,
            answer: Err(ReduceFault::Memory),
        },
    }
}

// The changes by which these members leave a settled session's group, which is ready for them.
fn plan<S: Shelf>(
    alloc: Global,
    driver: CommandDriver<S>,
    disks: &[u16],
) -> (CommandDriver<S>, Result<Vec<Departure>, Memory>)
    requires settled { IsSettled driver.1 }
    requires valid { IsValid driver.1.descriptor }
    requires may { MayDepartAll driver.1.descriptor disks.now }
    ensures shelf { result.0.0 ≡ driver.0 }
    ensures core { result.0.1 ≡ driver.1 }
    ensures ready { IsReady (S.device driver.0) }
    ensures planned { IfOk result.1 (λ ps. AreDepartures driver.1.origin.table driver.1.descriptor ps.items) }
    ensures disks { IfOk result.1 (λ ps. disks_of ps.items ≡ disks.now) }
{
    let (shelf, session) = driver.into_parts();
    let planned = departures(alloc, &session, disks);
    (CommandDriver::from_parts(shelf, session), planned)
}

// The changes by which these members leave the group of a session.
fn departures(alloc: Global, session: &Session, disks: &[u16]) -> Result<Vec<Departure>, Memory>
    requires valid { IsValid session.now.descriptor }
    requires may { MayDepartAll session.now.descriptor disks.now }
    ensures planned { IfOk result (λ ps. AreDepartures session.now.origin.table session.now.descriptor ps.items) }
    ensures disks { IfOk result (λ ps. disks_of ps.items ≡ disks.now) }
{
    let mut planned = Vec::new(alloc);
    let mut group = clone_descriptor(alloc, &session.descriptor)?;
    for disk in disks {
        planned.push(plan_departure(alloc, session, &group, *disk)?)?;
        group = without_members(alloc, &group, &[*disk], false)?;
    }
    Ok(planned)
}

// Takes the members out, one after the other.
fn depart_all<S: Shelf>(
    driver: CommandDriver<S>,
    departures: Vec<Departure>,
    patience: &mut Patience,
) -> (CommandDriver<S>, Result<(), CommitFault>)
    requires settled { IsSettled driver.1 }
    requires group { AreOfOneGroup driver.1 }
    requires ready { IsReady (S.device driver.0) }
    requires some { 1 ≤ length departures.items }
    requires numbers { HasNumbersFor (2 * length departures.items) driver.1 }
    requires spare { length departures.items ≤ spare_entries driver.1.history }
    requires depart { AreDepartures driver.1.origin.table driver.1.descriptor departures.items }
    requires last { IsValid (reduced (disks_of departures.items) driver.1.descriptor) }
    ensures ends { LeaveEnds (disks_of departures.items) patience.old.left (state_of S.device driver) (state_of S.device result.0) result.1 }
    ensures leaves { LeavesWithin (6 * length departures.items) (IsReducedBy (disks_of departures.items) driver.1.descriptor) [] (disks_of departures.items) patience.old.left patience.new.left (state_of S.device driver) (state_of S.device result.0) }
{
    let mut driver = driver;
    let mut rest = departures;
    while !rest.is_empty() {
        let departure = rest.remove(0);
        let (left, answer) = depart(driver, departure, patience);
        driver = left;
        if let Err(why) = answer {
            return (driver, Err(why));
        }
    }
    (driver, Ok(()))
}

// The command's answer for one of the writing of records.
fn reduce_answer(answer: Result<(), CommitFault>) -> Result<(), ReduceFault>
    requires { IsOfRecords answer }
    ensures { IsAnswerOf answer result }
{
    match answer {
        Ok(()) => Ok(()),
        Err(CommitFault::Dark) => Err(ReduceFault::Dark),
        Err(CommitFault::WentOff { have, total }) => Err(ReduceFault::WentOff { have, total }),
        Err(CommitFault::Stuck) => Err(ReduceFault::Stuck),
        Err(CommitFault::DiskFailed { .. }) => unreachable!(),
    }
}
