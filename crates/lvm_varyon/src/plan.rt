//! What a varyon writes, by what the disks show.
ghost use Rattle.std.specs.Prelude.{◌≡◌, if◌then◌else◌, None, Some, IfOk};
ghost use Rattle.lvm_num.specs.StatusBytes.{status_bytes};
ghost use Rattle.lvm_quorum.specs.Surveyed.{IsSurveyValid};
ghost use Rattle.lvm_num.specs.Descriptor.{IsValid};
ghost use Rattle.lvm_num.specs.Status.{IsValidStatus};
ghost use Rattle.lvm_quorum.specs.Rows.{AreRows};
ghost use Rattle.lvm_core.specs.Starting.{IsRoom};
ghost use Rattle.lvm_core.specs.passed.SessionStart.{IsOneGroup};
ghost use Rattle.lvm_varyon.specs.Planned.{PlanGives, IsPlanFor, cause_of, IsCopyingOf, IsCleanedChoice, IsLastOf, IsPlanOfChoice};

use lvm_core::below::homes_of;
use lvm_core::{Cause, Parts, Room, encode_records};
use lvm_num::{DiskSet, Memory, Name, Rows, Status, VolumeNumbers};
use lvm_quorum::{Choice, ChooseFault, Survey, choose};
use lvm_rec::Homes;
use lvm_recovery::{Recopy, named_by, plan_copies, still_dirty};
use lvm_status::StaleTable;
use lvm_write::next_status;
use std::alloc::Global;

// The last moment that a clock may answer. None is later.
const LAST: u64 = u64::MAX;

/// The parts of a session, and what is written before it begins, in memory that is all taken.
#[derive(Drop)]
pub struct Plan {
    pub parts: Parts,
    /// The bytes of the descriptor and of the next status.
    pub descriptor: Rows<u8>,
    pub status: Rows<u8>,
    /// The members that answer.
    pub targets: DiskSet,
    /// The slots that come next.
    pub homes: Homes,
    /// What makes usable copies equal, beside the volumes that are dirty.
    pub copying: Copying,
    /// The bytes of the second status, where marks of volumes go once their copies are equal.
    pub second: Option<Rows<u8>>,
}

/// By which status copies are usable and volumes dirty, and the copies of the track groups that notes name.
#[derive(Drop)]
pub struct Copying {
    pub table: StaleTable,
    pub copies: Rows<Recopy>,
}

/// The parts of a session, and the bytes of the status with which it begins, where it isn't the first one.
#[derive(Drop)]
pub struct Last {
    pub parts: Parts,
    pub second: Option<Rows<u8>>,
}

/// The plan by a survey, where the group of the name may come on under this moment.
pub fn plan_of(
    alloc: Global,
    survey: &Survey,
    name: Name,
    moment: u64,
    room: Room,
) -> Result<Plan, Cause>
    requires rows { AreRows survey.now }
    requires valid { IsSurveyValid survey.now }
    requires room { IsRoom room }
    ensures { PlanGives survey.now name moment room result }
{
    let choice = match choose(alloc, survey, name) {
        Ok(choice) => choice,
        Err(fault) => return Err(cause_of(fault)),
    };
    if moment == LAST {
        return Err(Cause::ClockBack { seen: moment });
    }
    if moment <= choice.seen {
        return Err(Cause::ClockBack { seen: choice.seen });
    }
    match plan_for(alloc, survey, choice, homes_of(survey), room) {
        Ok(plan) => Ok(plan),
        Err(Memory) => Err(Cause::Memory),
    }
}

// Why no group is chosen.
fn cause_of(fault: ChooseFault) -> Cause
    ensures { result ≡ cause_of fault }
{
    match fault {
        ChooseFault::NoRecord => Cause::NoRecord,
        ChooseFault::Ambiguous => Cause::Ambiguous,
        ChooseFault::NoQuorum { have, total } => Cause::NoQuorum { have, total },
        ChooseFault::Memory => Cause::Memory,
    }
}

// The plan of the group that was chosen.
fn plan_for(
    alloc: Global,
    survey: &Survey,
    choice: Choice,
    homes: Homes,
    room: Room,
) -> Result<Plan, Memory>
    requires rows { AreRows survey.now }
    requires descriptor { IsValid choice.descriptor }
    requires status { IsValidStatus choice.status }
    requires room { IsRoom room }
    ensures { IfOk result (IsPlanFor survey.now choice homes room) }
{
    let copying = copies_for(alloc, survey, &choice)?;
    let next = next_status(alloc, &choice.descriptor, &choice.status, choice.answering)?;
    plan_with(alloc, with_status(choice, next), copying, homes, room)
}

// What makes the usable copies of the group equal, by the status that was found and what the notes of the members
// that answer name.
fn copies_for(alloc: Global, survey: &Survey, choice: &Choice) -> Result<Copying, Memory>
    requires rows { AreRows survey.now }
    requires descriptor { IsValid choice.now.descriptor }
    requires status { IsValidStatus choice.now.status }
    ensures { IfOk result (IsCopyingOf survey.now choice.now) }
{
    let named = named_by(alloc, survey, choice.answering)?;
    let table = StaleTable::from_status(alloc, &choice.status)?;
    let copies = plan_copies(
        alloc,
        &choice.descriptor,
        &table,
        choice.answering,
        named.as_slice(),
    )?;
    Ok(Copying {
        table,
        copies: Rows::new(copies),
    })
}

// The choice with another status.
fn with_status(choice: Choice, status: Status) -> Choice
    ensures { result ≡ record choice { status = status } }
{
    let Choice {
        descriptor,
        answering,
        seen,
        ..
    } = choice;
    Choice {
        descriptor,
        status,
        answering,
        seen,
    }
}

// The plan by which a group comes on with the status of the choice, and goes on with the one in which marks are gone.
fn plan_with(
    alloc: Global,
    choice: Choice,
    copying: Copying,
    homes: Homes,
    room: Room,
) -> Result<Plan, Memory>
    requires descriptor { IsValid choice.descriptor }
    requires status { IsValidStatus choice.status }
    requires group { IsOneGroup choice.descriptor choice.status }
    requires room { IsRoom room }
    ensures { IfOk result (IsPlanOfChoice choice copying homes room) }
{
    let bytes = encode_records(alloc, &choice)?;
    let targets = choice.answering;
    let last = last_for(alloc, choice, &copying.table, room)?;
    Ok(Plan {
        parts: last.parts,
        descriptor: bytes.descriptor,
        status: bytes.status,
        targets,
        homes,
        copying,
        second: last.second,
    })
}

// The parts of the session that begins once the copies are equal.
fn last_for(alloc: Global, choice: Choice, table: &StaleTable, room: Room) -> Result<Last, Memory>
    requires descriptor { IsValid choice.descriptor }
    requires status { IsValidStatus choice.status }
    requires group { IsOneGroup choice.descriptor choice.status }
    requires room { IsRoom room }
    ensures { IfOk result (IsLastOf choice table.now room) }
{
    let (choice, goes) = cleaned(alloc, choice, table)?;
    let second = second_bytes(alloc, &choice.status, goes)?;
    let parts = Parts::new(alloc, choice, room)?;
    Ok(Last { parts, second })
}

// The choice with the status in which just those volumes are dirty that need it, and whether marks go by that.
fn cleaned(alloc: Global, choice: Choice, table: &StaleTable) -> Result<(Choice, bool), Memory>
    requires { IsValid choice.descriptor }
    ensures { IfOk result (λ got. IsCleanedChoice choice table.now got.0 got.1) }
{
    let dirty = still_dirty(
        alloc,
        &choice.descriptor,
        table,
        choice.answering,
        choice.status.dirty.as_slice(),
    )?;
    let goes = dirty.as_slice().len() < choice.status.dirty.as_slice().len();
    Ok((with_dirty(choice, dirty), goes))
}

// The choice with these volumes dirty.
fn with_dirty(choice: Choice, dirty: VolumeNumbers) -> Choice
    ensures { result ≡ record choice { status = record choice.status { dirty = dirty } } }
{
    let Choice {
        descriptor,
        status,
        answering,
        seen,
    } = choice;
    let Status { id, big, rows, .. } = status;
    Choice {
        descriptor,
        status: Status {
            id,
            big,
            dirty,
            rows,
        },
        answering,
        seen,
    }
}

// The bytes of a status, where it is to be written.
fn second_bytes(alloc: Global, status: &Status, goes: bool) -> Result<Option<Rows<u8>>, Memory>
    requires { IsValidStatus status.now }
    ensures { IfOk result (λ second. second ≡ (if goes then Some (status_bytes status.now) else None)) }
{
    if !goes {
        return Ok(None);
    }
    Ok(Some(lvm_vgsa::encode(alloc, status)?))
}
