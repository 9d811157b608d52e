//! A transfer is started.
ghost use Rattle.lvm_session.specs.Fields.{core_of};
ghost use Rattle.lvm_session.specs.Rooms.{HasRooms, SameRooms};
ghost use Rattle.lvm_session.specs.State.{state};
ghost use Rattle.lvm_moves.specs.Launching.{StartGives};
ghost use Rattle.lvm_moves.specs.Starts.{CanStart};

use crate::copying::{read_copy, write_copy};
use crate::data::start_data;
use crate::noting::start_note;
use crate::start::start_status;
use lvm_disk::Shelf;
use lvm_session::{Event, Session, Turned};

/// The transfer of an event that starts one is started. Answers `Moved`, or `Dark` where the power is found off.
pub fn make_start<S: Shelf>(session: &mut Session, shelf: &mut S, event: Event) -> Turned
    requires may { CanStart event (S.device shelf.old) (core_of session.old) }
    requires rooms { HasRooms session.old }
    ensures gives { StartGives event (state (S.device shelf.old) (core_of session.old)) (state (S.device shelf.new) (core_of session.new)) result }
    ensures rooms { SameRooms session.old session.new }
{
    match event {
        Event::StartStatus => start_status(session, shelf),
        Event::StartNote { place, disk } => start_note(session, shelf, place, disk),
        Event::StartData { place, target } => start_data(session, shelf, place, target),
        Event::ReadCopy => read_copy(session, shelf),
        Event::WriteCopy => write_copy(session, shelf),
        Event::Land { .. } | Event::Admit { .. } | Event::Pin { .. } => unreachable!(),
    }
}
