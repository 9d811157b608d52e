//! The first request whose track group may be pinned pins it.
ghost use Rattle.std.specs.Prelude.{◌≡◌, ◌<◌, length, slice_get, Some};
ghost use Rattle.lvm_path.specs.Next.{with_pin};
ghost use Rattle.lvm_path.specs.declared.facts.Next.TheVariants as next;
ghost use Rattle.lvm_session.specs.declared.open.Open.{Open};
ghost use Rattle.lvm_session.specs.Fields.{core_of};
ghost use Rattle.lvm_session.specs.Judging.{next_for};
ghost use Rattle.lvm_session.specs.Rooms.{SameRooms};
ghost use Rattle.lvm_session.specs.Sound.{IsGoing};
ghost use Rattle.lvm_due.specs.Due.{IsDue, NoneFails};
ghost use Rattle.lvm_moves.specs.Pinning.{PinGives, PinsAt};

use crate::below::group_of;
use lvm_due::{Due, might_pin, next_at};
use lvm_mwc::Pin;
use lvm_path::Next;
use lvm_session::{Open, Session};

// It has pinned its track group.
fn pin_open(open: &mut Open)
    ensures { open.new ≡ record open.old { request = with_pin open.old.request } }
{
    open.request.pinned();
}

// The request at a place, which is to pin its track group, does so where the cache has a place.
fn pin_group(session: &mut Session, place: usize) -> bool
    requires going { IsGoing (core_of session.old) }
    requires there { place < length session.old.requests.items }
    requires pins { (o : Open) → slice_get session.old.requests.items place ≡ Some o → next_for (core_of session.old) o ≡ next.Pin }
    ensures at { PinsAt (core_of session.old) (core_of session.new) place result }
    ensures rooms { SameRooms session.old session.new }
{
    let ask = session.requests[place].request.ask;
    match session.cache.pin(ask.lv(), group_of(&ask)) {
        Pin::AllPinned => false,
        Pin::Pinned => {
            pin_open(&mut session.requests[place]);
            true
        }
    }
}

// The request at a place pins its track group, where it may.
fn pin_at(session: &mut Session, place: usize, unfailing: bool) -> bool
    requires going { IsGoing (core_of session.old) }
    requires unfailing { NoneFails (core_of session.old) unfailing }
    requires there { place < length session.old.requests.items }
    ensures at { PinsAt (core_of session.old) (core_of session.new) place result }
    ensures rooms { SameRooms session.old session.new }
{
    if !might_pin(&session.requests[place].request) {
        return false;
    }
    match next_at(session, place, unfailing) {
        Next::Pin => pin_group(session, place),
        Next::Wait | Next::Admit | Next::Start { .. } | Next::Land { .. } => false,
    }
}

/// The first request whose track group may be pinned pins it. Answers whether there is one; where there is
/// none nothing changes.
pub fn pin_first(session: &mut Session, due: &mut Due) -> bool
    requires going { IsGoing (core_of session.old) }
    requires due { IsDue (core_of session.old) due.old }
    ensures gives { PinGives (core_of session.old) (core_of session.new) result }
    ensures rooms { SameRooms session.old session.new }
    ensures due { IsDue (core_of session.new) due.new }
{
    while due.pinning.from < due.pinning.to {
        let place = due.pinning.from;
        if pin_at(session, place, due.unfailing) {
            due.pinned(session, place);
            return true;
        }
        due.pinning.from += 1;
    }
    false
}
