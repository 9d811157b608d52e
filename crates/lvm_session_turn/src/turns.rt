//! One turn.
ghost use Rattle.std.specs.Prelude.{◌≡◌};
ghost use Rattle.lvm_session.specs.declared.open.Power.TheVariants as power;
ghost use Rattle.lvm_session.specs.Fields.{core_of};
ghost use Rattle.lvm_session.specs.Rooms.{HasRooms, SameRooms};
ghost use Rattle.lvm_session.specs.State.{state};
ghost use Rattle.lvm_session.specs.Turns.{OnMakes, TurnMakes};
ghost use Rattle.lvm_session.specs.Sound.{IsSound};
ghost use Rattle.lvm_moves.specs.passed.Due.{IsDue};

use crate::ending::finish;
use crate::first::make_first;
use lvm_disk::Shelf;
use lvm_moves::below::Due;
use lvm_session::{Power, Session, Turned};

// Of a session that goes on.
fn turn_on<S: Shelf>(session: &mut Session, shelf: &mut S, due: &mut Due) -> Turned
    requires sound { IsSound (state (S.device shelf.old) (core_of session.old)) }
    requires on { session.old.power ≡ power.On }
    requires rooms { HasRooms session.old }
    requires due { IsDue (core_of session.old) due.old }
    ensures makes { OnMakes (state (S.device shelf.old) (core_of session.old)) (state (S.device shelf.new) (core_of session.new)) result }
    ensures rooms { SameRooms session.old session.new }
    ensures due { IsDue (core_of session.new) due.new }
{
    match make_first(session, shelf, due) {
        Some(answer) => answer,
        None => finish(session, shelf, due),
    }
}

/// One turn of a session. The first event that may be made is: a request lands, is admitted or pins its track group,
/// or a transfer is started. Where there is none one of the transfers that are out ends, and its owner learns it;
/// nothing is made where none has ended or none is out, unless the votes are lost, in which case the session ends.
/// The power may be found off, which ends it too. One that is over is left as it is.
pub fn turn<S: Shelf>(session: &mut Session, shelf: &mut S, due: &mut Due) -> Turned
    requires sound { IsSound (state (S.device shelf.old) (core_of session.old)) }
    requires unstuck { session.old.power ≡ power.Stuck → ⊥ }
    requires rooms { HasRooms session.old }
    requires due { IsDue (core_of session.old) due.old }
    ensures makes { TurnMakes (state (S.device shelf.old) (core_of session.old)) (state (S.device shelf.new) (core_of session.new)) result }
    ensures rooms { SameRooms session.old session.new }
    ensures due { IsDue (core_of session.new) due.new }
{
    match session.power {
        Power::Dark => Turned::Dark,
        Power::Off => Turned::Off,
        Power::On => turn_on(session, shelf, due),
        Power::Stuck => unreachable!(),
    }
}
