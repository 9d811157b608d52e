//! The memory of a session, which is taken before it begins.
ghost use Rattle.std.specs.Prelude.{◌≡◌, ◌≤◌, ◌+◌, ℕ, false, [], IfOk, length, replicate, vec_capacity};
ghost use Rattle.lvm_num.specs.Descriptor.{IsValid, is_member};
ghost use Rattle.lvm_num.specs.Disks.{has};
ghost use Rattle.lvm_num.specs.Status.{IsValidStatus};
ghost use Rattle.lvm_status.specs.Calls.{first_updates};
ghost use Rattle.lvm_status.specs.Update.{seen};
ghost use Rattle.lvm_session_start.specs.Parts.{IsEmptyCache, IsOneGroup, IsReserved, IsSessionRoom};

use lvm_hold::Queue;
use lvm_keeps::below::{Flown, Open, Pool};
use lvm_mwc::Cache;
use lvm_num::{BUFFER_BYTES, Descriptor, DiskSet, Memory, Status};
use lvm_status::Updater;
use lvm_status::below::StaleTable;
use std::alloc::Global;

/// How much a session has room for.
#[derive(Clone, Copy)]
pub struct SessionRoom {
    /// Open requests, 1 to 1,024.
    pub table: u32,
    /// Transfer buffers, 1 to 1,024. As many transfers are out at most.
    pub pool: u32,
}

/// What a session has beside its history and its shelf, before it begins: its group, the status with which it begins,
/// and tables with room for all that it will have.
#[derive(Drop)]
pub struct Parts {
    pub descriptor: Descriptor,
    /// The status with which the session begins.
    pub table: StaleTable,
    pub room: SessionRoom,
    pub requests: Vec<Open>,
    pub queue: Queue,
    pub pool: Pool,
    pub flying: Vec<Flown>,
    pub updater: Updater,
    pub cache: Cache,
    pub bytes: Vec<u8>,
}

// The disks of the members.
fn members(d: &Descriptor) -> DiskSet
    requires { IsValid d.now }
    ensures { (disk : ℕ) → has result disk ≡ is_member d.now disk }
{
    let mut members = DiskSet::empty();
    for row in d.pvs.as_slice() {
        members = members.with(row.disk);
    }
    members
}

// An empty cache of the members' notes.
fn empty_cache(alloc: Global, d: &Descriptor) -> Result<Cache, Memory>
    requires { IsValid d.now }
    ensures { IfOk result (IsEmptyCache d.now) }
{
    Cache::new(alloc, members(d))
}

// The updates of a group that begins with a status.
fn first_updater(alloc: Global, d: &Descriptor, status: &Status) -> Result<Updater, Memory>
    requires descriptor { IsValid d.now }
    requires status { IsValidStatus status.now }
    requires group { IsOneGroup d.now status.now }
    ensures { IfOk result (λ updater. seen updater ≡ first_updates status.now d.now) }
{
    let table = StaleTable::from_status(alloc, status)?;
    Updater::new(alloc, table, d)
}

// What a session tells of its group.
#[derive(Drop)]
struct Told {
    table: StaleTable,
    updater: Updater,
    cache: Cache,
}

fn of_group(alloc: Global, d: &Descriptor, status: &Status) -> Result<Told, Memory>
    requires descriptor { IsValid d.now }
    requires status { IsValidStatus status.now }
    requires group { IsOneGroup d.now status.now }
    ensures table { IfOk result (λ told. told.table ≡ status.now) }
    ensures updater { IfOk result (λ told. seen told.updater ≡ first_updates status.now d.now) }
    ensures cache { IfOk result (λ told. IsEmptyCache d.now told.cache) }
{
    let cache = empty_cache(alloc, d)?;
    let table = StaleTable::from_status(alloc, status)?;
    let updater = first_updater(alloc, d, status)?;
    Ok(Told {
        table,
        updater,
        cache,
    })
}

// A vector with room for so many.
fn with_room<T>(alloc: Global, most: u32) -> Result<Vec<T>, Memory>
    ensures items { IfOk result (λ items. items.items ≡ []) }
    ensures capacity { IfOk result (λ items. most ≤ vec_capacity items) }
{
    match Vec::with_capacity(alloc, most as usize) {
        Ok(items) => Ok(items),
        Err(_) => Err(Memory),
    }
}

// The tables of requests and transfers.
#[derive(Drop)]
struct Tables {
    requests: Vec<Open>,
    queue: Queue,
    flying: Vec<Flown>,
}

fn of_requests(alloc: Global, room: SessionRoom) -> Result<Tables, Memory>
    requires { IsSessionRoom room }
    ensures requests { IfOk result (λ tables. tables.requests.items ≡ []) }
    ensures capacity { IfOk result (λ tables. room.table ≤ vec_capacity tables.requests) }
    ensures queue { IfOk result (λ tables. tables.queue ≡ record { room = room.table + 1; rows = [] }) }
    ensures flying { IfOk result (λ tables. tables.flying.items ≡ []) }
    ensures transfers { IfOk result (λ tables. room.pool ≤ vec_capacity tables.flying) }
{
    let requests = with_room(alloc, room.table)?;
    // The copy that is open has a place beside the requests.
    let queue = Queue::new(alloc, room.table + 1)?;
    let flying = with_room(alloc, room.pool)?;
    Ok(Tables {
        requests,
        queue,
        flying,
    })
}

fn room_of_blocks(alloc: Global) -> Result<Vec<u8>, Memory>
    ensures { IfOk result (λ bytes. length bytes.items ≡ 131072) }
{
    match vec![in alloc; 0; BUFFER_BYTES] {
        Ok(bytes) => Ok(bytes),
        Err(_) => Err(Memory),
    }
}

// The transfer buffers, and the room for the bytes of a status.
fn of_blocks(alloc: Global, room: SessionRoom) -> Result<(Pool, Vec<u8>), Memory>
    requires { IsSessionRoom room }
    ensures pool { IfOk result (λ made. made.0 ≡ replicate room.pool false) }
    ensures bytes { IfOk result (λ made. length made.1.items ≡ 131072) }
{
    let pool = Pool::new(alloc, room.pool)?;
    let bytes = room_of_blocks(alloc)?;
    Ok((pool, bytes))
}

// What a session has whatever its group is.
#[derive(Drop)]
struct Reserved {
    tables: Tables,
    pool: Pool,
    bytes: Vec<u8>,
}

fn of_room(alloc: Global, room: SessionRoom) -> Result<Reserved, Memory>
    requires { IsSessionRoom room }
    ensures requests { IfOk result (λ made. made.tables.requests.items ≡ []) }
    ensures capacity { IfOk result (λ made. room.table ≤ vec_capacity made.tables.requests) }
    ensures queue { IfOk result (λ made. made.tables.queue ≡ record { room = room.table + 1; rows = [] }) }
    ensures flying { IfOk result (λ made. made.tables.flying.items ≡ []) }
    ensures transfers { IfOk result (λ made. room.pool ≤ vec_capacity made.tables.flying) }
    ensures pool { IfOk result (λ made. made.pool ≡ replicate room.pool false) }
    ensures bytes { IfOk result (λ made. length made.bytes.items ≡ 131072) }
{
    let (pool, bytes) = of_blocks(alloc, room)?;
    let tables = of_requests(alloc, room)?;
    Ok(Reserved {
        tables,
        pool,
        bytes,
    })
}

/// Takes all the memory of a session of a group, which begins with this status.
///
/// # Errors
///
/// Where there is too little memory.
pub fn take_parts(
    alloc: Global,
    descriptor: Descriptor,
    status: &Status,
    room: SessionRoom,
) -> Result<Parts, Memory>
    requires room { IsSessionRoom room }
    requires descriptor { IsValid descriptor }
    requires status { IsValidStatus status.now }
    requires group { IsOneGroup descriptor status.now }
    ensures { IfOk result (IsReserved descriptor status.now room) }
{
    let made = of_room(alloc, room)?;
    let told = of_group(alloc, &descriptor, status)?;
    let tables = made.tables;
    Ok(Parts {
        descriptor,
        table: told.table,
        room,
        requests: tables.requests,
        queue: tables.queue,
        pool: made.pool,
        flying: tables.flying,
        updater: told.updater,
        cache: told.cache,
        bytes: made.bytes,
    })
}
