//! What is written of a new group, and the memory of its session.
ghost use Rattle.std.specs.Prelude.{◌≡◌, ◌<◌, ℕ, [], false, None, map, filter, IfOk, IsTrue, All};
ghost use Rattle.lvm_num.specs.Name.{is_name};
ghost use Rattle.lvm_num.specs.Descriptor.{IsValid, is_size};
ghost use Rattle.lvm_num.specs.Disks.{has};
ghost use Rattle.lvm_num.specs.Status.{IsValidStatus};
ghost use Rattle.lvm_core.specs.Starting.{IsRoom};
ghost use Rattle.lvm_core.specs.passed.SessionStart.{IsOneGroup};
ghost use Rattle.lvm_group.specs.NewGroup.{among, member_for, clear_row, disks_in_order, descriptor_for, first_absent};
ghost use Rattle.lvm_group.specs.Planned.{CanBeMade, IsChoiceFor, IsPlanOf, IsPlanned};

use crate::checks::partitions_on;
use lvm_core::below::Choice;
use lvm_core::{Parts, Room, encode_records};
use lvm_disk::Shelf;
use lvm_num::{
    DISKS, Descriptor, DiskSet, Memory, Name, PvRow, Rows, Status, StatusRow, VolumeNumbers,
};
use std::alloc::Global;

/// All that a new group takes memory for: the bytes of its two records, to which disks they go, and the parts of its
/// session.
#[derive(Drop)]
pub struct Plan {
    pub descriptor: Rows<u8>,
    pub status: Rows<u8>,
    pub targets: DiskSet,
    pub parts: Parts,
}

impl Plan {
    /// Takes it for a group with partitions of so many MiB.
    pub fn new<S: Shelf>(
        alloc: Global,
        shelf: &S,
        name: Name,
        mib: u16,
        disks: &[u16],
        moment: u64,
        room: Room,
    ) -> Result<Plan, Memory>
        requires can { CanBeMade (S.device shelf.now).sizes mib disks.now moment }
        requires room { IsRoom room }
        ensures { IfOk result (IsPlanned (S.device shelf.now).sizes name mib disks.now moment room) }
    {
        let choice = choice_of(alloc, shelf, name, mib, disks, moment)?;
        plan_with(alloc, choice, room)
    }
}

// The group and the status that are made of these disks.
fn choice_of<S: Shelf>(
    alloc: Global,
    shelf: &S,
    name: Name,
    mib: u16,
    disks: &[u16],
    moment: u64,
) -> Result<Choice, Memory>
    requires can { CanBeMade (S.device shelf.now).sizes mib disks.now moment }
    ensures { IfOk result (IsChoiceFor (S.device shelf.now).sizes name mib disks.now moment) }
{
    // of which there are at most 128
    let _disks = shelf.disks();
    let answering = set_of(disks);
    let descriptor = descriptor_of(alloc, shelf, name, mib, disks, moment)?;
    let status = status_of(alloc, answering, moment)?;
    Ok(Choice {
        descriptor,
        status,
        answering,
        seen: moment,
    })
}

// The plan with which a session of a group begins.
fn plan_with(alloc: Global, choice: Choice, room: Room) -> Result<Plan, Memory>
    requires descriptor { IsValid choice.descriptor }
    requires status { IsValidStatus choice.status }
    requires group { IsOneGroup choice.descriptor choice.status }
    requires room { IsRoom room }
    ensures { IfOk result (IsPlanOf choice room) }
{
    let bytes = encode_records(alloc, &choice)?;
    let targets = choice.answering;
    let parts = Parts::new(alloc, choice, room)?;
    Ok(Plan {
        descriptor: bytes.descriptor,
        status: bytes.status,
        targets,
        parts,
    })
}

fn set_of(disks: &[u16]) -> DiskSet
    requires { All (λ disk. disk < 128) disks.now }
    ensures { (disk : ℕ) → has result disk ≡ among disks.now disk }
{
    let mut set = DiskSet::empty();
    for disk in disks {
        set = set.with(*disk);
    }
    set
}

// The descriptor of a group of these disks, in their order, without volumes.
fn descriptor_of<S: Shelf>(
    alloc: Global,
    shelf: &S,
    name: Name,
    mib: u16,
    disks: &[u16],
    moment: u64,
) -> Result<Descriptor, Memory>
    requires there { first_absent (S.device shelf.now).sizes disks.now ≡ None }
    requires size { IsTrue (is_size mib) }
    ensures is { IfOk result (λ group. group ≡ descriptor_for (S.device shelf.now).sizes name mib disks.now moment) }
    ensures name { IfOk result (λ group. IsTrue (is_name name)) }
{
    // whose bytes are those of a name
    let _bytes = name.as_bytes();
    Ok(Descriptor {
        id: moment,
        name,
        mib,
        quorum: true,
        even: false,
        big: false,
        pvs: members_of(alloc, shelf, mib, disks)?,
        lvs: Rows::empty(alloc),
    })
}

fn members_of<S: Shelf>(
    alloc: Global,
    shelf: &S,
    mib: u16,
    disks: &[u16],
) -> Result<Rows<PvRow>, Memory>
    requires there { first_absent (S.device shelf.now).sizes disks.now ≡ None }
    requires size { IsTrue (is_size mib) }
    ensures { IfOk result (λ rows. rows ≡ map (member_for (S.device shelf.now).sizes mib) disks.now) }
{
    let mut rows = Vec::new(alloc);
    for disk in disks {
        rows.push(PvRow {
            disk: *disk,
            pps: partitions_on(shelf.sectors(*disk), mib),
            spare: false,
        })?;
    }
    Ok(Rows::new(rows))
}

// The status of a group of these disks, in which nothing is missing, stale or dirty.
fn status_of(alloc: Global, disks: DiskSet, moment: u64) -> Result<Status, Memory>
    ensures { IfOk result (λ status. status ≡ record { id = moment; big = false; dirty = []; rows = map clear_row (filter (has disks) disks_in_order) }) }
{
    Ok(Status {
        id: moment,
        big: false,
        dirty: VolumeNumbers::empty(alloc)?,
        rows: rows_of(alloc, disks)?,
    })
}

// A row for each disk, by their numbers.
fn rows_of(alloc: Global, disks: DiskSet) -> Result<Rows<StatusRow>, Memory>
    ensures { IfOk result (λ rows. rows ≡ map clear_row (filter (has disks) disks_in_order)) }
{
    let mut rows = Vec::new(alloc);
    for disk in 0..DISKS {
        if disks.has(disk) {
            rows.push(StatusRow {
                disk,
                missing: false,
                stale: [0; 127],
            })?;
        }
    }
    Ok(Rows::new(rows))
}
