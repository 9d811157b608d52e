//! Varying a group on.
ghost use Rattle.std.specs.Prelude.{◌≡◌, ◌≢◌, ◌+◌, IfOk, IfErr};
ghost use Rattle.lvm_disk.specs.Device.{IsReady};
ghost use Rattle.lvm_disk.specs.Paths.{DeviceStep, Path};
ghost use Rattle.lvm_steps.specs.Moments.{StaysKept};
ghost use Rattle.lvm_steps.specs.Behind.{StampsAreEarlier};
ghost use Rattle.lvm_varyon.specs.passed.SessionStart.{AreFaults};
ghost use Rattle.lvm_varyon.specs.passed.Core.{HaveAllLanded, IsRoom, state_of, BringsOn, IsStarted, shelf_left, history_left};
ghost use Rattle.lvm_varyon.specs.Varied.{VariesOnAt, BringGives, IsAheadOfDisks, brought_of, log_after, VaryonStops};
ghost use Rattle.lvm_transfer.specs.Reading.{OnlyReads};
ghost use Rattle.lvm_write.specs.Parts.{Spends};
ghost use Rattle.lvm_varyon.specs.Copied.{all_copies};
ghost use Rattle.lvm_varyon.specs.Second.{last_seq};
ghost use Rattle.lvm_varyon.specs.Parts.{IsPlannedBy, plan_beginning};
ghost use Rattle.lvm_varyon.specs.Equal.{AllWritesGive, AllWritesKeep, MayWritePlan};

use crate::below::{Cause, CommandDriver, Parts, Refused, Room};
use crate::plan::{Plan, plan_of};
use crate::writes::{make_equal, read_disks, write_plan};
use lvm_disk::Shelf;
use lvm_history::History;
use lvm_num::{Name, Pbuf, Rows, Stamp};
use lvm_rec::Homes;
use lvm_transfer::Patience;
use std::alloc::Global;

/// Varies the group of a name on: reads the records of all disks of the shelf, chooses the group's newest
/// descriptor and status by the members that answer, and writes both to these under the moment, the status
/// with a row for exactly the members. Missing are then those that don't answer, and stale, beside what
/// was, their copies of which another is fresh. Then each track group of a volume in mode active that the note of one
/// of these members names is copied from the first of its fresh copies on them to the others, and so is each volume in
/// mode passive that the status calls dirty, whole. Then a status is written in which just those are dirty that have a
/// logical partition without a fresh copy on them, where marks go by that; and at last their notes are emptied.
///
/// # Errors
///
/// In this order: `HistoryFull` where no entry is spare; `Dark` and `Stuck` while the disks are read;
/// `NoRecord`, `Ambiguous` and `NoQuorum` by what those show that answer; `ClockBack` where the moment
/// isn't later than each record of the group, or is the last one. Up to here nothing is written.
/// Then `Dark`, `Stuck`, or `DiskFailed` where a transfer of a member that answered failed: the lowest of these while
/// records or notes were written, the first one while copies were made, be it that the first fresh copy can't be read.
/// `Memory` comes before the first write alone.
pub fn varyon<S: Shelf>(
    alloc: Global,
    shelf: S,
    history: History,
    name: Name,
    moment: u64,
    room: Room,
    patience: &mut Patience,
) -> Result<CommandDriver<S>, Refused<S>>
    requires ready { IsReady (S.device shelf) }
    requires landed { HaveAllLanded history.facts }
    requires room { IsRoom room }
    requires moment { moment ≢ 0 }
    ensures gives { VariesOnAt S.device history name moment room patience.old.left (S.device shelf) result }
    // the group is on
    ensures starts { IfOk result (λ driver. IsStarted history.run moment (S.device shelf) history (state_of S.device driver)) }
    ensures faults { IfOk result (λ driver. AreFaults (S.device driver.0) driver.1.origin.faults) }
    // whatever the answer
    ensures leaves { BringsOn history.run moment patience.old.left patience.new.left (S.device shelf) (S.device (shelf_left result)) history (history_left result) }
{
    if history.spare_entries() == 0 {
        return Err(refused(shelf, history, Cause::HistoryFull));
    }
    let mut shelf = shelf;
    match bring(alloc, &mut shelf, name, moment, room, patience) {
        Ok((begun, homes)) => {
            let stamp = Stamp {
                epoch: moment,
                seq: begun.1,
            };
            Ok(CommandDriver::start(begun.0, shelf, history, stamp, homes))
        }
        Err(cause) => Err(refused(shelf, history, cause)),
    }
}

// What is handed back where the group didn't come on. A power cut is entered.
fn refused<S: Shelf>(shelf: S, mut history: History, cause: Cause) -> Refused<S>
    ensures shelf { result.shelf ≡ shelf }
    ensures history { result.history ≡ log_after cause history }
    ensures cause { result.cause ≡ cause }
{
    if let Cause::Dark = cause {
        history.cut();
    }
    Refused {
        shelf,
        history,
        cause,
    }
}

// Writes the records of the group that the name chooses, and has the parts of its session.
fn bring<S: Shelf>(
    alloc: Global,
    shelf: &mut S,
    name: Name,
    moment: u64,
    room: Room,
    patience: &mut Patience,
) -> Result<((Parts, u32), Homes), Cause>
    requires ready { IsReady (S.device shelf.old) }
    requires room { IsRoom room }
    requires moment { moment ≢ 0 }
    ensures gives { BringGives (S.device shelf.old) (S.device shelf.new) name moment patience.old.left room result }
    ensures spends { Spends patience.old.left patience.new.left (S.device shelf.old) (S.device shelf.new) }
    ensures behind { IsAheadOfDisks moment (S.device shelf.old) → StampsAreEarlier (moment + 1) (S.device shelf.new) }
    ensures kept { IsAheadOfDisks moment (S.device shelf.old) → Path DeviceStep (StaysKept (S.device shelf.old)) (S.device shelf.old) (S.device shelf.new) }
{
    let (plan, buf) = read_plan(alloc, shelf, name, moment, room, patience)?;
    let written = write_all(shelf, &plan, moment, buf, patience);
    begin_with(plan, written)
}

// Writes the records of a plan, makes its copies, says which volumes are dirty still, and empties the notes.
fn write_all<S: Shelf>(
    shelf: &mut S,
    plan: &Plan,
    moment: u64,
    buf: Pbuf,
    patience: &mut Patience,
) -> Result<Homes, Cause>
    requires ready { IsReady (S.device shelf.old) }
    requires moment { moment ≢ 0 }
    requires may { MayWritePlan (S.device shelf.old) plan.now }
    ensures gives { AllWritesGive patience.old.left (plan_beginning moment plan.now) (all_copies plan.now) plan.now.second (S.device shelf.old) (S.device shelf.new) result }
    ensures spends { Spends patience.old.left patience.new.left (S.device shelf.old) (S.device shelf.new) }
    ensures kept { AllWritesKeep (plan_beginning moment plan.now) (all_copies plan.now) plan.now.second (S.device shelf.old) (S.device shelf.new) }
{
    let (homes, buf) = write_plan(shelf, plan, moment, buf, patience)?;
    make_equal(shelf, plan, moment, homes, buf, patience)
}

// What the session of a plan begins with, where its records were written.
fn begin_with(plan: Plan, written: Result<Homes, Cause>) -> Result<((Parts, u32), Homes), Cause>
    ensures { result ≡ brought_of (plan.parts, last_seq plan.second) written }
{
    with_homes(parts_of(plan), written)
}

// The parts of its session, and the sequence of its last record.
fn parts_of(plan: Plan) -> (Parts, u32)
    ensures { result ≡ (plan.parts, last_seq plan.second) }
{
    let seq = last_seq(&plan.second);
    (plan.parts, seq)
}

// Under which sequence the last record is written: the second status, where there is one, or the first.
fn last_seq(second: &Option<Rows<u8>>) -> u32
    ensures { result ≡ last_seq second.now }
{
    match second {
        None => 2,
        Some(_) => 3,
    }
}

// What begins with these parts and these homes, where there are some.
fn with_homes<P: Drop>(parts: P, homes: Result<Homes, Cause>) -> Result<(P, Homes), Cause>
    ensures { result ≡ brought_of parts homes }
{
    match homes {
        Ok(homes) => Ok((parts, homes)),
        Err(why) => Err(why),
    }
}

// Reads the disks, and plans what is written to them.
fn read_plan<S: Shelf>(
    alloc: Global,
    shelf: &mut S,
    name: Name,
    moment: u64,
    room: Room,
    patience: &mut Patience,
) -> Result<(Plan, Pbuf), Cause>
    requires ready { IsReady (S.device shelf.old) }
    requires room { IsRoom room }
    ensures planned { IfOk result (λ got. IsPlannedBy (S.device shelf.old) (S.device shelf.new) name moment room got.0) }
    ensures stops { IfErr result (VaryonStops (S.device shelf.old) (S.device shelf.new) name moment patience.old.left) }
    ensures only { OnlyReads patience.old.left patience.new.left (S.device shelf.old) (S.device shelf.new) }
{
    let (survey, buf) = read_disks(alloc, shelf, patience)?;
    match plan_of(alloc, &survey, name, moment, room) {
        Ok(plan) => Ok((plan, buf)),
        Err(why) => Err(why),
    }
}
