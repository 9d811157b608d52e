//! Runs over disks in memory.
ghost use Rattle.std.specs.Prelude.{◌≡◌, ◌%◌, length, All, IfOk, IsTrue};
ghost use Rattle.lvm_disk.specs.Device.{IsReady};
ghost use Rattle.lvm_core.specs.Starting.{IsRoom};
ghost use Rattle.lvm_memory.specs.Memory.{device_of};

use crate::fault::Fault;
use crate::outside::Streams;
use lvm_disk::Shelf;
use lvm_io::{MemClock, MemSink};
use lvm_memory::{MemShelf, Planned, names_disks};
use lvm_num::Rows;
use lvm_program::{Ended, Room, Workload, run_script, run_weave};
use lvm_vol::Vol;
use std::alloc::Global;

/// The sizes of the disks of a case in sectors, and the room of its runs.
#[derive(Drop)]
pub struct Sizes {
    pub sectors: Vec<u64>,
    pub room: Room,
}

/// What of the disks is judged once a run has ended: whether its history allows what stands in a sector, and whether two
/// disks have the same in some sectors.
#[derive(Clone, Copy, Drop)]
pub struct Watched {
    pub block: Option<(u16, u64)>,
    pub mirror: Option<Mirror>,
}

/// Sectors that two disks have: the first, and how many.
#[derive(Clone, Copy, Drop)]
pub struct Mirror {
    pub one: u16,
    pub other: u16,
    pub first: u64,
    pub count: u64,
}

/// What a run's history says that its status doesn't, and whether the two disks have the same.
#[derive(Clone, Copy, Drop)]
pub struct Judged {
    pub history: &'static str,
    pub mirror: &'static str,
}

// How many writes a shelf tells by their ranges.
const LOG: u32 = 1_024;

/// Disks of zeros.
pub fn blank(alloc: Global, sectors: &[u64], plan: &[Planned]) -> Result<MemShelf, Fault>
    ensures { IfOk result (λ shelf. IsReady (device_of shelf)) }
{
    if sectors.is_empty() || sectors.len() > 128 || !names_disks(plan, sectors.len() as u16) {
        return Err(Fault::Line);
    }
    let plan = Rows::new(Vec::from_slice(alloc, plan)?);
    Ok(MemShelf::new(alloc, sectors, plan, LOG)?)
}

// What stands on a disk, and nothing where there is no such disk.
fn image_of(alloc: Global, shelf: &MemShelf, disk: u16) -> Result<Rows<u8>, Fault> {
    if disk >= shelf.disks() {
        return Ok(Rows::empty(alloc));
    }
    Ok(Rows::new(shelf.image(alloc, disk)?))
}

/// What stands on the disks.
pub(crate) fn images_of(alloc: Global, shelf: &MemShelf) -> Result<Vec<Rows<u8>>, Fault> {
    let mut images = Vec::new(alloc);
    for disk in 0..shelf.disks() {
        images.push(image_of(alloc, shelf, disk)?)?;
    }
    Ok(images)
}

fn are_whole(images: &[Rows<u8>]) -> bool
    ensures { IsTrue result → All (λ bytes. length bytes % 512 ≡ 0) images.now }
{
    images.iter().all(|bytes| bytes.len() % 512 == 0)
}

/// The disks as a run left them, which are started again: none is failing, and calls are counted from 1.
pub fn restarted(alloc: Global, images: Vec<Rows<u8>>, plan: &[Planned]) -> Result<MemShelf, Fault>
    ensures { IfOk result (λ shelf. IsReady (device_of shelf)) }
{
    match Vec::from_slice(alloc, plan) {
        Ok(plan) => started(alloc, images, plan),
        Err(_) => {
            drop(images);
            Err(Fault::Memory)
        }
    }
}

fn started(alloc: Global, images: Vec<Rows<u8>>, plan: Vec<Planned>) -> Result<MemShelf, Fault>
    ensures { IfOk result (λ shelf. IsReady (device_of shelf)) }
{
    if images.is_empty()
        || images.len() > 128
        || !are_whole(&images)
        || !names_disks(&plan, images.len() as u16)
    {
        drop(images);
        drop(plan);
        return Err(Fault::Line);
    }
    Ok(MemShelf::from_images(alloc, Rows::new(images), Rows::new(plan), LOG)?)
}

// The room, within what a run may have.
fn bounded(room: Room) -> Room
    ensures { IsRoom result }
{
    Room {
        table: room.table.max(1).min(1_024),
        pool: room.pool.max(1).min(1_024),
        entries: room.entries.max(4),
        bytes: room.bytes,
    }
}

// How many disks there are, and how many MiB the first one has; 0 where these are more than any run takes.
fn measures(sizes: &Sizes) -> (u16, u32) {
    let disks = u16::try_from(sizes.sectors.len()).unwrap_or(0);
    let mib = match sizes.sectors.first() {
        Some(sectors) => u32::try_from(*sectors / 2_048).unwrap_or(0),
        None => 0,
    };
    (disks, mib)
}

/// Runs a workload over disks of 8 to 64 MiB.
pub(crate) fn run_load(
    alloc: Global,
    load: &Workload,
    out: &mut MemSink,
    shelf: MemShelf,
    clock: &mut MemClock,
    sizes: &Sizes,
) -> Result<Ended<MemShelf>, Fault>
    requires { IsReady (device_of shelf) }
{
    let (disks, mib) = measures(sizes);
    if disks < 1 || disks > 8 || mib < 8 || mib > 64 || load.clients < 1 || load.clients > 64 {
        drop(shelf);
        return Err(Fault::Line);
    }
    let room = bounded(sizes.room);
    Ok(run_weave(alloc, disks, mib, load, out, shelf, clock, room))
}

/// Runs a script.
pub(crate) fn run(
    alloc: Global,
    streams: &mut Streams,
    shelf: MemShelf,
    clock: &mut MemClock,
    room: Room,
) -> Ended<MemShelf>
    requires { IsReady (device_of shelf) }
{
    let room = bounded(room);
    run_script(
        alloc,
        &mut streams.input,
        &mut streams.out,
        shelf,
        clock,
        room,
    )
}

/// What is judged of a run.
pub(crate) fn judge(ended: &Ended<MemShelf>, watched: Watched) -> Judged {
    Judged {
        history: judged_history(ended, watched.block),
        mirror: judged_mirror(&ended.shelf, watched.mirror),
    }
}

// The disks that a run was over: those that it made for itself, else those that it was given.
fn disks_of(ended: &Ended<MemShelf>) -> &MemShelf {
    match &ended.sim {
        Some(disks) => disks,
        None => &ended.shelf,
    }
}

// Whether a run's history is legal, and whether it allows what stands in a sector of a disk.
fn judged_history(ended: &Ended<MemShelf>, watched: Option<(u16, u64)>) -> &'static str {
    let Some(history) = &ended.history else {
        return ", no history";
    };
    if !history.is_legal() {
        return ", not legal";
    }
    match watched {
        None => "",
        Some((disk, at)) => match sector(disks_of(ended), disk, at) {
            Some(value) if history.may_of(Vol::Disk(disk), at, value) => ", allowed",
            _ => ", not allowed",
        },
    }
}

fn judged_mirror(shelf: &MemShelf, mirror: Option<Mirror>) -> &'static str {
    match mirror {
        None => "",
        Some(mirror) if are_alike(shelf, mirror) => ", alike",
        Some(_) => ", not alike",
    }
}

// Whether the two disks have these sectors, and the same in each.
fn are_alike(shelf: &MemShelf, mirror: Mirror) -> bool {
    for at in mirror.first..mirror.first.saturating_add(mirror.count) {
        let one = sector(shelf, mirror.one, at);
        if one.is_none() || one != sector(shelf, mirror.other, at) {
            return false;
        }
    }
    true
}

/// What stands in a sector of a disk.
pub(crate) fn sector(shelf: &MemShelf, disk: u16, at: u64) -> Option<&[u8; 512]> {
    if disk >= shelf.disks() || at >= shelf.sectors(disk) {
        return None;
    }
    Some(shelf.sector(disk, at))
}
