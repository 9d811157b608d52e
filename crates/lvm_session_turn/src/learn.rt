//! The notes of a disk and the update learn how a write ended.
ghost use Rattle.std.specs.Prelude.{◌<◌, IsSome, IsTrue};
ghost use Rattle.lvm_num.specs.Disks.{has};
ghost use Rattle.lvm_mwc.specs.Cache.{flight_on};
ghost use Rattle.lvm_status.specs.declared.change.Change.TheVariants as change;
ghost use Rattle.lvm_status.specs.Calls.{MayChange};
ghost use Rattle.lvm_session.specs.Fields.{core_of};
ghost use Rattle.lvm_session.specs.Rooms.{SameRooms};
ghost use Rattle.lvm_session.specs.Ends.{FlipsIf};
ghost use Rattle.lvm_session_turn.specs.Learning.{MayReturn, NoteWriteEnds, StatusWriteEnds};

use crate::back::return_flight;
use lvm_num::{Kind, Pbuf};
use lvm_rec::Homes;
use lvm_session::Session;
use lvm_status::Change;

/// The write of the note in flight on a disk, at a place of the list, has ended well or badly: its buffer is in
/// the pool again, and the disk's notes learn it. A disk whose note failed becomes wanted missing.
pub fn learn_note(session: &mut Session, at: usize, disk: u16, ok: bool, buf: Pbuf)
    requires may { MayReturn (core_of session.old) at buf.number }
    requires flies { IsSome (flight_on session.old.cache disk) }
    requires row { MayChange (change.Missing disk) session.old.updater.wanted }
    ensures core { NoteWriteEnds ok (core_of session.old) at disk buf (core_of session.new) }
    ensures rooms { SameRooms session.old session.new }
{
    return_flight(session, at, buf);
    session.cache.end_note(disk, ok);
    if !ok {
        session.updater.want(Change::Missing(disk));
    }
}

// The next status goes to the other slot of the disk, where this one was written.
fn flip_if(homes: &mut Homes, disk: u16, ok: bool)
    requires { disk < 128 }
    ensures { FlipsIf ok disk homes.old homes.new }
{
    if ok {
        homes.flip(Kind::Status, disk);
    }
}

/// The write of the status in flight to a disk, at a place of the list, has ended well or badly: its buffer is in
/// the pool again, and the update learns it.
pub fn learn_status(session: &mut Session, at: usize, disk: u16, ok: bool, buf: Pbuf)
    requires may { MayReturn (core_of session.old) at buf.number }
    requires flies { IsTrue (has session.old.updater.writes.started disk) }
    requires member { disk < 128 }
    ensures core { StatusWriteEnds ok (core_of session.old) at disk buf (core_of session.new) }
    ensures rooms { SameRooms session.old session.new }
{
    return_flight(session, at, buf);
    session.updater.ended(disk, ok);
    flip_if(&mut session.homes, disk, ok);
}
