//! The memory of a session, which is taken before it starts.
ghost use Rattle.std.specs.Prelude.{◌≡◌, ◌≤◌, IfOk, IsTrue, IsFalse};
ghost use Rattle.lvm_num.specs.Descriptor.{IsValid};
ghost use Rattle.lvm_num.specs.Status.{IsValidStatus};
ghost use Rattle.lvm_vol.specs.Log.{spare_entries};
ghost use Rattle.lvm_session.specs.Fields.{core_of};
ghost use Rattle.lvm_session.specs.Rooms.{HasRooms};
ghost use Rattle.lvm_session.specs.Placed.{ArePlaced};
ghost use Rattle.lvm_session_start.specs.Parts.{IsOneGroup};
ghost use Rattle.lvm_session_start.specs.Beginning.{AreFaults, first_core};
ghost use Rattle.lvm_core.specs.Starting.{IsRoom, IsReservedFor, AreReserved, session_room_of};

use crate::look::are_placed;
use lvm_disk::Shelf;
use lvm_num::{Descriptor, Memory, Stamp};
use lvm_quorum::Choice;
use lvm_rec::Homes;
use lvm_session::Session;
use lvm_session_start::below::History;
use lvm_session_start::{first_session, take_parts};
use std::alloc::Global;
use std::marker::Model;

/// How much a session and its run have room for.
#[derive(Clone, Copy)]
pub struct Room {
    /// Open requests, 1 to 1,024.
    pub table: u32,
    /// Transfer buffers, 1 to 1,024. As many transfers are under way at most.
    pub pool: u32,
    /// Entries of the history, at least 4.
    pub entries: u32,
    /// Bytes of the history's blocks.
    pub bytes: u64,
}

// The room of the session.
fn of_session(room: Room) -> lvm_session_start::SessionRoom
    ensures { result ≡ session_room_of room }
{
    lvm_session_start::SessionRoom {
        table: room.table,
        pool: room.pool,
    }
}

/// What a session has beside its history and its shelf: its group, a table for its requests, the hold
/// queue, the transfer buffers, the statuses and the cache with the notes of the members. All their
/// memory is taken with them.
#[derive(Drop)]
pub struct Parts {
    taken: lvm_session_start::Parts,
}

impl Model for Parts {
    ghost use Rattle.lvm_session_start.specs.declared.parts.Parts.{Parts as Taken};
    ghost use Rattle.lvm_core.specs.Starting.{AreReserved};

    ghost Value = { Taken };

    ghost view = { λ p. p.taken };

    ghost invariant = { λ p. AreReserved p.taken };
}

impl Parts {
    /// Takes all the memory of a session of the group that was chosen. It begins with the status of
    /// the choice.
    pub fn new(alloc: Global, choice: Choice, room: Room) -> Result<Parts, Memory>
        requires room { IsRoom room }
        requires descriptor { IsValid choice.descriptor }
        requires status { IsValidStatus choice.status }
        requires group { IsOneGroup choice.descriptor choice.status }
        ensures { IfOk result (IsReservedFor choice.descriptor choice.status room) }
    {
        match take_parts(alloc, choice.descriptor, &choice.status, of_session(room)) {
            Ok(taken) => Ok(Parts { taken }),
            Err(memory) => Err(memory),
        }
    }

    /// Whether the disks of the members that aren't missing are on a shelf, each with the sectors that its
    /// partitions need.
    pub fn are_placed<S: Shelf>(&self, shelf: &S) -> bool
        ensures yes { IsTrue result → ArePlaced (S.device shelf.now).sizes self.now.descriptor self.now.updater.wanted }
        ensures no { IsFalse result → ArePlaced (S.device shelf.now).sizes self.now.descriptor self.now.updater.wanted → ⊥ }
    {
        let members = self.taken.descriptor.pvs.as_slice();
        are_placed(
            shelf,
            self.taken.descriptor.mib,
            members,
            self.taken.updater.wanted(),
        )
    }

    /// The group that was chosen.
    pub fn descriptor(&self) -> &Descriptor
        ensures same { result.now ≡ self.now.descriptor }
        ensures valid { IsValid result.now }
    {
        &self.taken.descriptor
    }

    // The session that begins with them, whose moment of varyon is the epoch of the stamp.
    pub(crate) fn into_session<S: Shelf>(
        self,
        shelf: &S,
        history: History,
        stamp: Stamp,
        homes: Homes,
    ) -> Session
        requires { 1 ≤ spare_entries history }
        ensures core { core_of result ≡ first_core self history stamp homes result.origin.faults }
        ensures faults { AreFaults (S.device shelf.now) result.origin.faults }
        ensures rooms { HasRooms result }
        ensures reserved { AreReserved self }
    {
        first_session(self.taken, shelf, history, stamp, homes)
    }
}
