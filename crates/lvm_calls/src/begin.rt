//! A request begins.
ghost use Rattle.std.specs.Prelude.{◌≡◌, ◌≤◌, ◌<◌, ◌^◌, ◌++◌, ◌∷◌, [], length, true, option_copied, vec_capacity, vec_len};
ghost use Rattle.std.specs.List.{AllByRecursion};
ghost use Rattle.lvm_vol.specs.Log.{next_id};
ghost use Rattle.lvm_session.specs.declared.open.Open.{Open};
ghost use Rattle.lvm_session.specs.Fields.{core_of};
ghost use Rattle.lvm_session.specs.Rooms.{HasRooms, SameRooms};
ghost use Rattle.lvm_session.specs.Calls.{has_history, new_open, submitted};
ghost use Rattle.lvm_session.specs.Sound.{IsGoing};
ghost use Rattle.lvm_session.specs.Asking.{IsAsking};

use lvm_due::held_of;
use lvm_path::{Ask, Request};
use lvm_session::{Open, Session};
use lvm_vol::Vol;

// A request whose blocks stand in the history from a place on.
fn new_open(id: u64, client: u32, ask: Ask, place: u64) -> Open
    ensures { result ≡ new_open id client ask place }
{
    Open {
        request: Request::new(id, client, ask),
        place,
        older: false,
        got: None,
        landed: None,
    }
}

// Adds a request to a table that has room.
fn add_request(requests: &mut Vec<Open>, last: Open)
    requires { vec_len requests.old < vec_capacity requests.old }
    ensures items { requests.new.items ≡ requests.old.items ++ last ∷ [] }
    ensures capacity { vec_capacity requests.new ≡ vec_capacity requests.old }
{
    match requests.insert(requests.len(), last) {
        Ok(()) => {}
        Err(_) => unreachable!(),
    }
}

// The requests of the table have numbers below the next one, which is one of 32 bits or the first beyond.
fn are_numbered(session: &Session)
    requires { IsGoing (core_of session.now) }
    ensures below { AllByRecursion (λ (o : Open). o.request.id < next_id session.now.history) session.now.requests.items }
    ensures few { next_id session.now.history ≤ 2 ^ 32 }
{
    // It has fewer than 2^32 entries.
    let _ = session.history.len();
}

/// A request begins under the next number, and waits.
pub fn begin(session: &mut Session, client: u32, ask: Ask, bytes: Option<&[u8]>) -> u64
    requires going { IsGoing (core_of session.old) }
    requires rooms { HasRooms session.old }
    requires place { length session.old.requests.items < session.old.most }
    requires history { has_history (core_of session.old) ask ≡ true }
    requires asks { IsAsking ask (option_copied bytes) }
    ensures id { result ≡ next_id session.old.history }
    ensures core { core_of session.new ≡ submitted (core_of session.old) client ask (option_copied bytes.entry) }
    ensures rooms { SameRooms session.old session.new }
{
    are_numbered(session);
    let place = session.history.block_count();
    let id = session
        .history
        .begin(client, Vol::Lv(ask.lv()), ask.at(), ask.count(), bytes);
    session.queue.enter(2 * id, held_of(&ask));
    add_request(&mut session.requests, new_open(id, client, ask, place));
    id
}
