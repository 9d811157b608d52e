//! The first request that may land, be admitted or pin its track group does.
ghost use Rattle.std.specs.Prelude.{◌≡◌, ℕ, Some, None};
ghost use Rattle.lvm_disk.specs.Device.{Device};
ghost use Rattle.lvm_vol.specs.declared.entry.Outcome.{Outcome};
ghost use Rattle.lvm_session.specs.declared.event.Event.TheVariants as event;
ghost use Rattle.lvm_session.specs.Enabled.{admission, first_of, landing, parts_to_settle};
ghost use Rattle.lvm_session.specs.Fields.{core_of};
ghost use Rattle.lvm_session.specs.Rooms.{SameRooms};
ghost use Rattle.lvm_session.specs.Sound.{IsGoing};
ghost use Rattle.lvm_due.specs.Due.{IsDue};
ghost use Rattle.lvm_moves.specs.Choosing.{MayChoose};
ghost use Rattle.lvm_moves.specs.Moving.{FirstGives};

use crate::admit::admit_at;
use crate::land::land_at;
use crate::pins::pin_first;
use lvm_disk::Shelf;
use lvm_due::{Due, first_admission, first_landing, holds_pin, is_quiet};
use lvm_session::{Event, Session};
use lvm_vol::Outcome;

// Which request lands, and how, where the event is a landing.
fn landing_of(found: Option<Event>) -> Option<(usize, Outcome)>
    ensures some { (place : ℕ) (how : Outcome) → found ≡ Some (event.Land place how) → result ≡ Some (place, how) }
    ensures none { found ≡ None → result ≡ None }
{
    match found {
        Some(Event::Land { place, outcome }) => Some((place, outcome)),
        _ => None,
    }
}

// Which request is admitted, where the event is an admission.
fn admission_of(found: Option<Event>) -> Option<usize>
    ensures some { (place : ℕ) → found ≡ Some (event.Admit place) → result ≡ Some place }
    ensures none { found ≡ None → result ≡ None }
{
    match found {
        Some(Event::Admit { place }) => Some(place),
        _ => None,
    }
}

/// The first request that may land does: all that a turn makes of requests once the votes are lost. Answers whether
/// there is one; where there is none nothing changes.
pub fn land_first(session: &mut Session, due: &mut Due) -> bool
    requires going { IsGoing (core_of session.old) }
    requires due { IsDue (core_of session.old) due.old }
    ensures gives { (device : Device) → FirstGives landing device (core_of session.old) (core_of session.new) result }
    ensures rooms { SameRooms session.old session.new }
    ensures due { IsDue (core_of session.new) due.new }
{
    match landing_of(first_landing(session, due.unfailing, &mut due.landing)) {
        None => false,
        Some((place, outcome)) => {
            let pinned = holds_pin(session, place);
            land_at(session, place, outcome);
            due.landed(session, place, pinned);
            true
        }
    }
}

fn admit_first<S: Shelf>(session: &mut Session, shelf: &S, due: &mut Due) -> bool
    requires may { MayChoose (S.device shelf.now) (core_of session.old) }
    requires due { IsDue (core_of session.old) due.old }
    ensures gives { FirstGives admission (S.device shelf.now) (core_of session.old) (core_of session.new) result }
    ensures rooms { SameRooms session.old session.new }
    ensures due { IsDue (core_of session.new) due.new }
{
    match admission_of(first_admission(session, due.unfailing, &mut due.admission)) {
        None => false,
        Some(place) => {
            let quiet = is_quiet(session, place);
            let pinned = holds_pin(session, place);
            admit_at(session, shelf, place);
            due.admitted(session, place, quiet, pinned);
            true
        }
    }
}

/// The first event that may be made and starts no transfer is made: a request lands, is admitted, or pins its
/// track group. Answers whether there is one; where there is none nothing changes.
pub fn move_first<S: Shelf>(session: &mut Session, shelf: &S, due: &mut Due) -> bool
    requires may { MayChoose (S.device shelf.now) (core_of session.old) }
    requires due { IsDue (core_of session.old) due.old }
    ensures gives { FirstGives (first_of parts_to_settle) (S.device shelf.now) (core_of session.old) (core_of session.new) result }
    ensures rooms { SameRooms session.old session.new }
    ensures due { IsDue (core_of session.new) due.new }
{
    if land_first(session, due) {
        return true;
    }
    if admit_first(session, shelf, due) {
        return true;
    }
    pin_first(session, due)
}
