//! A session begins with its parts.
ghost use Rattle.std.specs.Prelude.{◌≡◌, ◌≤◌, vec_capacity};
ghost use Rattle.lvm_vol.specs.Log.{spare_entries};
ghost use Rattle.lvm_keeps.specs.passed.Session.{core_of, HasRooms, state, IsSound};
ghost use Rattle.lvm_session_start.specs.Beginning.{AreFaults, MayBeginSession, first_core, with_parts};
ghost use Rattle.lvm_session_start.specs.Parts.{IsReserved};

use crate::parts::Parts;
use lvm_disk::Shelf;
use lvm_keeps::below::{History, Homes, Origin, Power, Session};
use lvm_num::Stamp;
use lvm_vol::Entry;

fn faults_of<S: Shelf>(shelf: &S) -> [u64; 128]
    ensures { AreFaults (S.device shelf.now) result }
{
    let mut faults = [0; 128];
    for disk in 0..shelf.disks() {
        faults[usize::from(disk)] = shelf.faults(disk);
    }
    faults
}

// The session of these parts.
fn of_parts(parts: Parts, history: History, homes: Homes, faults: [u64; 128]) -> Session
    ensures core { core_of result ≡ with_parts parts history homes faults }
    ensures requests { vec_capacity result.requests ≡ vec_capacity parts.requests }
    ensures flying { vec_capacity result.flying ≡ vec_capacity parts.flying }
    ensures bytes { result.bytes ≡ parts.bytes }
{
    Session {
        descriptor: parts.descriptor,
        history,
        requests: parts.requests,
        most: parts.room.table,
        queue: parts.queue,
        copy: None,
        pool: parts.pool,
        flying: parts.flying,
        updater: parts.updater,
        cache: parts.cache,
        homes,
        last: [0; 512],
        origin: Origin {
            faults,
            table: parts.table,
        },
        power: Power::On,
        bytes: parts.bytes,
    }
}

/// The session of these parts over a shelf, at the moment that is the epoch of its last stamp, which the history
/// tells. It takes no memory.
pub fn first_session<S: Shelf>(
    parts: Parts,
    shelf: &S,
    history: History,
    stamp: Stamp,
    homes: Homes,
) -> Session
    requires spare { 1 ≤ spare_entries history }
    requires reserved { IsReserved parts.descriptor parts.table parts.room parts }
    ensures core { core_of result ≡ first_core parts history stamp homes result.origin.faults }
    ensures faults { AreFaults (S.device shelf.now) result.origin.faults }
    ensures rooms { HasRooms result }
{
    let faults = faults_of(shelf);
    let mut history = history;
    history.push(Entry::On {
        moment: stamp.epoch,
    });
    let mut parts = parts;
    parts.updater.set_stamp(stamp);
    of_parts(parts, history, homes, faults)
}

/// So a session begins that may, over a shelf at rest.
pub fn begin_session<S: Shelf>(
    parts: Parts,
    shelf: &S,
    history: History,
    stamp: Stamp,
    homes: Homes,
) -> Session
    requires spare { 1 ≤ spare_entries history }
    requires may { MayBeginSession (S.device shelf.now) history stamp homes parts }
    ensures core { core_of result ≡ first_core parts history stamp homes result.origin.faults }
    ensures faults { AreFaults (S.device shelf.now) result.origin.faults }
    ensures sound { IsSound (state (S.device shelf.now) (core_of result)) }
    ensures rooms { HasRooms result }
{
    first_session(parts, shelf, history, stamp, homes)
}
