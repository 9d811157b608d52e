//! What stands against a volume that is to be made or removed, and what a new one is made of.
ghost use Rattle.std.specs.Prelude.{◌≡◌, ◌↔◌, ◌≤◌, ◌<◌, ◌^◌, length, IfOk, IfErr, IsTrue, ◌+◌};
ghost use Rattle.lvm_num.specs.Descriptor.{most_volumes};
ghost use Rattle.lvm_num.specs.Geometry.{partition_blocks, volume_blocks};
ghost use Rattle.lvm_core.specs.Settled.{IsSettled};
ghost use Rattle.lvm_volume_plan.specs.Faults.{TakesCommands, HasSpareRoom, MayHaveCopies, HasNumber, HasPlaces, MayBeMade, RefusesAll, RefusesMklv, RefusesRmlv};
ghost use Rattle.lvm_volume_plan.specs.NewVolume.{row_for, with_volume, without_volume};
ghost use Rattle.lvm_volume_plan.specs.PlannedVolume.{AreOfOneGroup, IsPlannedVolume, IsWithout};

use crate::fault::GroupFault;
use crate::next::{lowest_free, with_volume, without_volume};
use lvm_core::below::Power;
use lvm_core::{CommandDriver, Prepared};
use lvm_disk::Shelf;
use lvm_map::{MapFault, allocate, blocks};
use lvm_num::{Descriptor, LvRow, MIB_BLOCKS, Memory, Mode, Name, Policy, Pp, Rows};
use lvm_status::members_there;
use std::alloc::Global;

// The fewest entries with which a command is begun: that of the volume's beginning and that of its end.
const ENTRIES: u32 = 2;

// The fewest sequence numbers with which one is begun.
const NUMBERS: u32 = 65_536;

/// What is asked of a new volume.
#[derive(Clone, Copy)]
pub struct NewVolume {
    pub name: Name,
    pub copies: u8,
    pub mode: Mode,
    pub policy: Policy,
    pub lps: u32,
}

/// A new volume's number, its blocks, its mode and its map, and the descriptor with it. All memory is taken
/// with them.
#[derive(Drop)]
pub struct VolumePlan {
    pub number: u16,
    pub blocks: u64,
    pub mode: Mode,
    pub map: Rows<Pp>,
    pub next: Prepared,
}

impl VolumePlan {
    /// That of a new volume, unless something stands against it.
    pub fn new<S: Shelf>(
        alloc: Global,
        driver: &CommandDriver<S>,
        v: &NewVolume,
    ) -> Result<VolumePlan, GroupFault>
        requires settled { TakesCommands driver.now.1 → IsSettled driver.now.1 }
        requires some { 1 ≤ v.now.lps }
        ensures planned { IfOk result (IsPlannedVolume v.now driver.now.1) }
        ensures refused { IfErr result (RefusesMklv v.now driver.now.1) }
    {
        check(driver, v)?;
        let map = places(alloc, driver, v)?;
        if !has_room(driver) {
            return Err(GroupFault::HistoryFull);
        }
        match plan(alloc, driver, v, map) {
            Ok(plan) => Ok(plan),
            Err(Memory) => Err(GroupFault::Memory),
        }
    }
}

/// The descriptor without the volume of this number, unless something stands against its removal.
pub fn prepare_without<S: Shelf>(
    alloc: Global,
    driver: &CommandDriver<S>,
    lv: u16,
) -> Result<Prepared, GroupFault>
    ensures without { IfOk result (IsWithout lv driver.now.1) }
    ensures refused { IfErr result (RefusesRmlv lv driver.now.1) }
{
    takes_commands(driver)?;
    if blocks(driver.descriptor(), lv).is_none() {
        return Err(GroupFault::NoVolume);
    }
    if !has_room(driver) {
        return Err(GroupFault::HistoryFull);
    }
    match without(alloc, driver, lv) {
        Ok(next) => Ok(next),
        Err(Memory) => Err(GroupFault::Memory),
    }
}

/// Whether the session takes a command.
pub fn takes_commands<S: Shelf>(driver: &CommandDriver<S>) -> Result<(), GroupFault>
    ensures takes { IfOk result (λ done. TakesCommands driver.now.1) }
    ensures group { IfOk result (λ done. AreOfOneGroup driver.now.1) }
    ensures refused { IfErr result (RefusesAll driver.now.1) }
{
    match driver.power() {
        Power::Dark => Err(GroupFault::Dark),
        Power::Stuck => Err(GroupFault::Stuck),
        Power::Off => {
            let (have, total) = driver.votes();
            Err(GroupFault::WentOff { have, total })
        }
        Power::On => {
            if driver.open() == 0 {
                Ok(())
            } else {
                Err(GroupFault::Busy)
            }
        }
    }
}

// What stands against a new volume before places are looked for.
fn check<S: Shelf>(driver: &CommandDriver<S>, v: &NewVolume) -> Result<(), GroupFault>
    ensures may { IfOk result (λ done. HasNumber v.now driver.now.1) }
    ensures group { IfOk result (λ done. AreOfOneGroup driver.now.1) }
    ensures refused { IfErr result (RefusesMklv v.now driver.now.1) }
{
    takes_commands(driver)?;
    if driver.volume(v.name).is_some() {
        return Err(GroupFault::VolumeExists);
    }
    if !may_have(v.copies) {
        return Err(GroupFault::CopyLimit { now: 0 });
    }
    let group = driver.descriptor();
    let limit = most_volumes(group);
    if group.lvs.len() >= limit as usize {
        return Err(GroupFault::TooMany { limit });
    }
    Ok(())
}

// Whether a volume may have so many copies.
fn may_have(copies: u8) -> bool
    ensures { IsTrue result ↔ MayHaveCopies copies }
{
    1 <= copies && copies <= 3
}

/// The most volumes that the group may have.
pub fn most_volumes(d: &Descriptor) -> u32
    ensures { result ≡ most_volumes d.now.big }
{
    if d.big { 511 } else { 255 }
}

// The places of a new volume by first fit, on the members that aren't missing.
fn places<S: Shelf>(
    alloc: Global,
    driver: &CommandDriver<S>,
    v: &NewVolume,
) -> Result<Rows<Pp>, GroupFault>
    requires settled { IsSettled driver.now.1 }
    requires may { HasNumber v.now driver.now.1 }
    ensures places { IfOk result (HasPlaces v.now driver.now.1) }
    ensures refused { IfErr result (RefusesMklv v.now driver.now.1) }
{
    let group = driver.descriptor();
    let usable = members_there(group, driver.table());
    match allocate(alloc, group, usable, v.lps, v.copies) {
        Ok(map) => Ok(map),
        Err(MapFault::NoRoom { free }) => Err(GroupFault::NoRoom { free }),
        Err(MapFault::Memory) => Err(GroupFault::Memory),
    }
}

/// Whether enough entries and sequence numbers are left for a command.
pub fn has_room<S: Shelf>(driver: &CommandDriver<S>) -> bool
    ensures { IsTrue result ↔ HasSpareRoom driver.now.1 }
{
    driver.history().spare_entries() >= ENTRIES && driver.numbers_left() >= NUMBERS
}

// The plan of a volume with this map, against which nothing stands.
fn plan<S: Shelf>(
    alloc: Global,
    driver: &CommandDriver<S>,
    v: &NewVolume,
    map: Rows<Pp>,
) -> Result<VolumePlan, Memory>
    requires some { 1 ≤ v.now.lps }
    requires group { AreOfOneGroup driver.now.1 }
    requires may { MayBeMade v.now driver.now.1 map }
    ensures { IfOk result (IsPlannedVolume v.now driver.now.1) }
{
    // whose bytes are those of a name
    let _bytes = v.name.as_bytes();
    let group = driver.descriptor();
    let number = lowest_free(group);
    let blocks = blocks_of(group.mib, v.lps);
    let next = driver.prepare(alloc, with_new(alloc, group, v, number, map.as_slice())?)?;
    Ok(VolumePlan {
        number,
        blocks,
        mode: v.mode,
        map,
        next,
    })
}

// The descriptor with a new volume of this number and this map.
fn with_new(
    alloc: Global,
    d: &Descriptor,
    v: &NewVolume,
    number: u16,
    map: &[Pp],
) -> Result<Descriptor, Memory>
    requires least { 1 ≤ number }
    requires place { number ≤ length d.now.lvs + 1 }
    ensures { IfOk result (λ next. next ≡ with_volume d.now (row_for v.now number map.now)) }
{
    let row = LvRow {
        number,
        name: v.name,
        copies: v.copies,
        mode: v.mode,
        policy: v.policy,
        lps: v.lps,
        map: Rows::new(Vec::from_slice(alloc, map)?),
    };
    with_volume(alloc, d, row)
}

// The blocks of so many partitions of so many MiB.
fn blocks_of(mib: u16, lps: u32) -> u64
    ensures blocks { result ≡ volume_blocks mib lps }
    ensures few { lps < 2 ^ 32 }
{
    partition_blocks(mib) * u64::from(lps)
}

fn partition_blocks(mib: u16) -> u64
    ensures blocks { result ≡ partition_blocks mib }
    ensures most { result < 2 ^ 27 }
{
    MIB_BLOCKS * u64::from(mib)
}

// The descriptor without a volume.
fn without<S: Shelf>(alloc: Global, driver: &CommandDriver<S>, lv: u16) -> Result<Prepared, Memory>
    ensures { IfOk result (λ next. next ≡ without_volume driver.now.1.descriptor lv) }
{
    driver.prepare(alloc, without_volume(alloc, driver.descriptor(), lv)?)
}
