//! The first event of a turn that may be made.
ghost use Rattle.std.specs.Prelude.{◌≡◌, true, false};
ghost use Rattle.lvm_disk.specs.Device.{Device};
ghost use Rattle.lvm_session.specs.declared.open.Power.TheVariants as power;
ghost use Rattle.lvm_session.specs.Enabled.{is_lost};
ghost use Rattle.lvm_session.specs.Fields.{core_of};
ghost use Rattle.lvm_session.specs.Rooms.{HasRooms, SameRooms};
ghost use Rattle.lvm_session.specs.State.{state};
ghost use Rattle.lvm_session.specs.Sound.{IsGoing, IsSound};
ghost use Rattle.lvm_moves.specs.passed.Due.{IsDue};
ghost use Rattle.lvm_moves.specs.Launching.{StartGives};
ghost use Rattle.lvm_moves.specs.Starts.{CanStart, StartsFirst};
ghost use Rattle.lvm_session_turn.specs.Taking.{FirstMakes};

use lvm_disk::Shelf;
use lvm_moves::below::{Due, first_start, is_lost};
use lvm_moves::{land_first, make_start, move_first};
use lvm_session::{Event, Session, Turned};

// The transfer of an event that starts one is.
fn start<S: Shelf>(session: &mut Session, shelf: &mut S, event: Event, due: &mut Due) -> Turned
    requires may { CanStart event (S.device shelf.old) (core_of session.old) }
    requires rooms { HasRooms session.old }
    requires going { IsGoing (core_of session.old) }
    requires due { IsDue (core_of session.old) due.old }
    ensures gives { StartGives event (state (S.device shelf.old) (core_of session.old)) (state (S.device shelf.new) (core_of session.new)) result }
    ensures rooms { SameRooms session.old session.new }
    ensures due { IsDue (core_of session.new) due.new }
{
    match make_start(session, shelf, event) {
        Turned::Moved => {
            due.started(session, event);
            Turned::Moved
        }
        answer => {
            *due = Due::all(session.requests.len());
            answer
        }
    }
}

// The first transfer that may be started is.
fn start_first<S: Shelf>(session: &mut Session, shelf: &mut S, due: &mut Due) -> Option<Turned>
    requires sound { IsSound (state (S.device shelf.old) (core_of session.old)) }
    requires on { session.old.power ≡ power.On }
    requires votes { is_lost (core_of session.old) ≡ false }
    requires rooms { HasRooms session.old }
    requires due { IsDue (core_of session.old) due.old }
    ensures starts { StartsFirst (state (S.device shelf.old) (core_of session.old)) (state (S.device shelf.new) (core_of session.new)) result }
    ensures rooms { SameRooms session.old session.new }
    ensures due { IsDue (core_of session.new) due.new }
{
    match first_start(session, due) {
        None => None,
        Some(event) => Some(start(session, shelf, event, due)),
    }
}

// While the votes are there.
fn settle_or_start<S: Shelf>(session: &mut Session, shelf: &mut S, due: &mut Due) -> Option<Turned>
    requires sound { IsSound (state (S.device shelf.old) (core_of session.old)) }
    requires on { session.old.power ≡ power.On }
    requires votes { is_lost (core_of session.old) ≡ false }
    requires rooms { HasRooms session.old }
    requires due { IsDue (core_of session.old) due.old }
    ensures makes { FirstMakes (state (S.device shelf.old) (core_of session.old)) (state (S.device shelf.new) (core_of session.new)) result }
    ensures rooms { SameRooms session.old session.new }
    ensures due { IsDue (core_of session.new) due.new }
{
    if move_first(session, shelf, due) {
        Some(Turned::Moved)
    } else {
        start_first(session, shelf, due)
    }
}

// Once they are lost.
fn land_only(session: &mut Session, due: &mut Due) -> Option<Turned>
    requires going { IsGoing (core_of session.old) }
    requires lost { is_lost (core_of session.old) ≡ true }
    requires rooms { HasRooms session.old }
    requires due { IsDue (core_of session.old) due.old }
    ensures makes { (device : Device) → FirstMakes (state device (core_of session.old)) (state device (core_of session.new)) result }
    ensures rooms { SameRooms session.old session.new }
    ensures due { IsDue (core_of session.new) due.new }
{
    if land_first(session, due) {
        Some(Turned::Moved)
    } else {
        None
    }
}

/// The first event of a turn that may be made is. Answers `Moved`, or `Dark` where it starts a transfer and the
/// power is found off; None where there is none, and nothing has changed.
pub fn make_first<S: Shelf>(session: &mut Session, shelf: &mut S, due: &mut Due) -> Option<Turned>
    requires sound { IsSound (state (S.device shelf.old) (core_of session.old)) }
    requires on { session.old.power ≡ power.On }
    requires rooms { HasRooms session.old }
    requires due { IsDue (core_of session.old) due.old }
    ensures makes { FirstMakes (state (S.device shelf.old) (core_of session.old)) (state (S.device shelf.new) (core_of session.new)) result }
    ensures rooms { SameRooms session.old session.new }
    ensures due { IsDue (core_of session.new) due.new }
{
    if is_lost(session) {
        land_only(session, due)
    } else {
        settle_or_start(session, shelf, due)
    }
}
