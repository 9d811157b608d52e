//! The transfer of a target of a request has ended.
ghost use Rattle.std.specs.Prelude.{◌≡◌, ◌==◌, ◌<◌, true, IfSome, Some, length, position, slice_get};
ghost use Rattle.std.specs.List.{list_any};
ghost use Rattle.lvm_path.specs.declared.target.Target.{Target};
ghost use Rattle.lvm_pbuf.specs.Out.{IsOut};
ghost use Rattle.lvm_session.specs.declared.flown.Owner.TheVariants as owner;
ghost use Rattle.lvm_session.specs.declared.open.Open.{Open};
ghost use Rattle.lvm_session.specs.Fields.{core_of};
ghost use Rattle.lvm_session.specs.Rooms.{SameRooms};
ghost use Rattle.lvm_session.specs.Ends.{DataLearns, IsOfData, after_data, given_back, learned};
ghost use Rattle.lvm_session_turn.specs.Ended.{TransferHasEnded, HasId};

use crate::back::end_flight;
use lvm_calls::entail;
use lvm_moves::below::give_back;
use lvm_num::{Pbuf, Pp};
use lvm_path::Target;
use lvm_session::{Open, Session};

fn position_of(requests: &[Open], id: u64) -> Option<usize>
    ensures { result ≡ position (λ (o : Open). o.request.id == id) requests.now }
{
    requests.iter().position(|open| open.request.id == id)
}

// Looks for the request of this number through the table.
fn searched_place(session: &Session, id: u64) -> usize
    requires { list_any (λ (o : Open). o.request.id == id) session.now.requests.items ≡ true }
    ensures { HasId session.now.requests.items result id }
{
    match position_of(&session.requests, id) {
        Some(place) => place,
        None => unreachable!(),
    }
}

// The place of the request of this number in the table: it is looked for first where it likely stands.
fn place_of(session: &Session, id: u64) -> usize
    requires { list_any (λ (o : Open). o.request.id == id) session.now.requests.items ≡ true }
    ensures { HasId session.now.requests.items result id }
{
    match likely_at(&session.requests, id) {
        Some(place) => place,
        None => searched_place(session, id),
    }
}

// The place at which it likely stands, where it stands there.
fn likely_at(requests: &[Open], id: u64) -> Option<usize>
    ensures { IfSome result (λ place. HasId requests.now place id) }
{
    let place = likely_place(requests, id);
    if stands_at(requests, place, id) {
        Some(place)
    } else {
        None
    }
}

// Where it stands if all requests between it and the first are open.
fn likely_place(requests: &[Open], id: u64) -> usize {
    match requests.first() {
        None => 0,
        Some(first) => id.saturating_sub(first.request.id) as usize,
    }
}

// Whether the request at a place, if there is one, has this number.
fn stands_at(requests: &[Open], place: usize, id: u64) -> bool
    ensures { result ≡ true → HasId requests.now place id }
{
    place < requests.len() && requests[place].request.id == id
}

// The target of this number, from 0.
fn target_of(open: &Open, target: u8) -> Target
    requires { target < length open.now.request.targets.items }
    ensures { slice_get open.now.request.targets.items target ≡ Some result }
{
    open.request.targets[usize::from(target)]
}

// The target learns how its transfer ended. A read that ended well keeps the buffer, which is handed out else.
fn learn(open: &mut Open, target: u8, ok: bool, buf: Pbuf) -> Option<Pbuf>
    requires { target < length open.old.request.targets.items }
    ensures open { open.new ≡ learned open.old target ok buf }
    ensures back { result ≡ given_back open.old ok buf }
{
    open.request.ended(target, ok);
    if ok && !open.request.ask.is_write() {
        open.got = Some(buf);
        None
    } else {
        Some(buf)
    }
}

// The transfer isn't out any more, and the request has learned how it ended.
fn learn_data(session: &mut Session, at: usize, place: usize, target: u8, ok: bool, buf: Pbuf)
    requires within { at < length session.old.flying.items }
    requires its { IsOfData (core_of session.old) place target }
    requires out { IsOut session.old.pool buf.number }
    ensures core { (o : Open) → slice_get session.old.requests.items place ≡ Some o → core_of session.new ≡ after_data (core_of session.old) at place o target ok buf }
    ensures rooms { SameRooms session.old session.new }
{
    end_flight(session, at);
    let back = learn(&mut session.requests[place], target, ok, buf);
    give_back(&mut session.pool, back);
}

/// The transfer of a target, from 0, of the request of a number has ended well or badly, which stood at a place of
/// the list of those that are out: the target learns it, a read that ended well keeps its buffer, and what that
/// entails is wanted.
pub fn end_data(session: &mut Session, at: usize, id: u64, target: u8, ok: bool, buf: Pbuf)
    requires { TransferHasEnded (core_of session.old) at (owner.Data id target) buf.number }
    ensures learns { DataLearns (core_of session.old) at id target ok buf (core_of session.new) }
    ensures rooms { SameRooms session.old session.new }
{
    let place = place_of(session, id);
    let pp = target_of(&session.requests[place], target).pp;
    learn_data(session, at, place, target, ok, buf);
    entail(session, place, ok, pp);
}
