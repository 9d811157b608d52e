//! One of the transfers that are out ends, or the session does.
ghost use Rattle.std.specs.Prelude.{◌≡◌, ◌<◌, length};
ghost use Rattle.lvm_session.specs.declared.open.Power.TheVariants as power;
ghost use Rattle.lvm_session.specs.Fields.{core_of};
ghost use Rattle.lvm_session.specs.Rooms.{SameRooms};
ghost use Rattle.lvm_session.specs.State.{state};
ghost use Rattle.lvm_session.specs.Ends.{Learns};
ghost use Rattle.lvm_session.specs.Turns.{FinishMakes};
ghost use Rattle.lvm_session.specs.Sound.{IsGoing, IsSound};
ghost use Rattle.lvm_moves.specs.passed.Due.{IsDue};
ghost use Rattle.lvm_session_turn.specs.Ended.{TransferHasEnded};
ghost use Rattle.lvm_session_turn.specs.Finishing.{Rests};

use crate::copy_learn::end_step;
use crate::data::end_data;
use crate::records::{end_note, end_status};
use crate::rows::{Back, reap_row};
use lvm_disk::Shelf;
use lvm_moves::below::{Due, darken, go_off, is_lost, is_quiet_for};
use lvm_num::Pbuf;
use lvm_session::{Owner, Session, Turned};

// The owner of a transfer that has ended learns how.
fn learn(session: &mut Session, at: usize, owner: Owner, ok: bool, buf: Pbuf)
    requires { TransferHasEnded (core_of session.old) at owner buf.number }
    ensures learns { Learns owner (core_of session.old) at ok buf (core_of session.new) }
    ensures rooms { SameRooms session.old session.new }
{
    match owner {
        Owner::Data { id, target } => end_data(session, at, id, target, ok, buf),
        Owner::Status { disk } => end_status(session, at, disk, ok, buf),
        Owner::Note { disk } => end_note(session, at, disk, ok, buf),
        Owner::Copy => end_step(session, at, ok, buf),
    }
}

// Where some transfer is out one ends, or none has ended, or the power is off.
fn end_one<S: Shelf>(session: &mut Session, shelf: &mut S, due: &mut Due) -> Turned
    requires sound { IsSound (state (S.device shelf.old) (core_of session.old)) }
    requires on { session.old.power ≡ power.On }
    requires out { 0 < length (S.device shelf.old).flights }
    requires due { IsDue (core_of session.old) due.old }
    ensures makes { FinishMakes (state (S.device shelf.old) (core_of session.old)) (state (S.device shelf.new) (core_of session.new)) result }
    ensures rooms { SameRooms session.old session.new }
    ensures due { IsDue (core_of session.new) due.new }
{
    match reap_row(session, shelf) {
        Back::Empty => Turned::Idle,
        Back::Ended { at, row, ok, buf } => {
            let quiet = is_quiet_for(session, row.owner);
            learn(session, at, row.owner, ok, buf);
            due.ended(session, row.owner, ok, quiet);
            Turned::Moved
        }
        Back::Dark => {
            darken(session);
            *due = Due::all(session.requests.len());
            Turned::Dark
        }
    }
}

// Where none is out the session ends once its votes are lost.
fn rest(session: &mut Session, due: &mut Due) -> Turned
    requires going { IsGoing (core_of session.old) }
    requires due { IsDue (core_of session.old) due.old }
    ensures rests { Rests (core_of session.old) (core_of session.new) result }
    ensures rooms { SameRooms session.old session.new }
    ensures due { IsDue (core_of session.new) due.new }
{
    if is_lost(session) {
        go_off(session);
        *due = Due::all(session.requests.len());
        Turned::Off
    } else {
        Turned::Idle
    }
}

/// What a turn makes that finds no event. One of the transfers that are out ends, and its owner learns how; nothing
/// happens where none has ended, or none is out; and the session ends where none is out and its votes are lost, or
/// the power is found off.
pub fn finish<S: Shelf>(session: &mut Session, shelf: &mut S, due: &mut Due) -> Turned
    requires sound { IsSound (state (S.device shelf.old) (core_of session.old)) }
    requires on { session.old.power ≡ power.On }
    requires due { IsDue (core_of session.old) due.old }
    ensures makes { FinishMakes (state (S.device shelf.old) (core_of session.old)) (state (S.device shelf.new) (core_of session.new)) result }
    ensures rooms { SameRooms session.old session.new }
    ensures due { IsDue (core_of session.new) due.new }
{
    if session.flying.as_slice().is_empty() {
        rest(session, due)
    } else {
        end_one(session, shelf, due)
    }
}
