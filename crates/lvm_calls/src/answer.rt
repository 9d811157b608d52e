//! The answer of a request is taken.
ghost use Rattle.std.specs.Prelude.{◌≡◌, Some, position};
ghost use Rattle.lvm_session.specs.declared.open.Open.{Open};
ghost use Rattle.lvm_session.specs.Fields.{core_of};
ghost use Rattle.lvm_session.specs.Rooms.{SameRooms};
ghost use Rattle.lvm_session.specs.Calls.{TakeAt, TakeGives, is_asked, taken_as};
ghost use Rattle.lvm_session.specs.Sound.{IsTold};

use lvm_session::{Open, Session, Taken};
use lvm_vol::Outcome;

fn place_of(requests: &[Open], client: u32, id: u64) -> Option<usize>
    ensures { result ≡ position (is_asked client id) requests.now }
{
    requests.iter().position(|open| open.request.client == client && open.request.id == id)
}

fn taken_as(how: Outcome, place: u64, count: u32) -> Taken
    ensures { result ≡ taken_as how place count }
{
    match how {
        Outcome::Done => Taken::Done,
        Outcome::Got => Taken::Got { place, count },
        Outcome::Lost => Taken::Lost,
        Outcome::ReadFailed => Taken::ReadFailed,
        Outcome::NoFresh => Taken::NoFresh,
        Outcome::Off => Taken::Off,
        Outcome::Dark => Taken::Dark,
    }
}

// The request at a place goes with its answer, where it has landed.
fn take_at(session: &mut Session, place: usize, client: u32, id: u64) -> Taken
    requires told { IsTold (core_of session.old) }
    requires place { Some place ≡ position (is_asked client id) session.old.requests.items }
    ensures at { TakeAt (core_of session.old) (core_of session.new) place result }
    ensures rooms { SameRooms session.old session.new }
{
    let open = &session.requests[place];
    let (landed, from, count) = (open.landed, open.place, open.request.ask.count());
    match landed {
        None => Taken::NotYet,
        Some(how) => {
            session.history.taken(client, id);
            session.requests.remove(place);
            taken_as(how, from, count)
        }
    }
}

/// The answer of a client's request of this number, which goes with it. `NotYet` where it hasn't landed, and
/// `Unknown` where no such request of this client is open; both change nothing.
pub fn take(session: &mut Session, client: u32, id: u64) -> Taken
    requires { IsTold (core_of session.old) }
    ensures gives { TakeGives (core_of session.old) (core_of session.new) client id result }
    ensures rooms { SameRooms session.old session.new }
{
    match place_of(&session.requests, client, id) {
        None => Taken::Unknown,
        Some(place) => take_at(session, place, client, id),
    }
}
