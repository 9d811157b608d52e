//! The transfer of a target is started.
ghost use Rattle.std.specs.Prelude.{◌≡◌, ◌≤◌, ◌<◌, ◌+◌, ◌++◌, ◌∷◌, [], ℕ, true, Some, length, slice_get, slice_set, vec_capacity, vec_len};
ghost use Rattle.lvm_disk.specs.Steps.{IsRange, StartGives as GivesStart};
ghost use Rattle.lvm_vol.specs.Log.{blocks_begun, blocks_of};
ghost use Rattle.lvm_path.specs.Asks.{count_of, is_write};
ghost use Rattle.lvm_session.specs.declared.event.Event.TheVariants as event;
ghost use Rattle.lvm_session.specs.declared.flown.Owner.TheVariants as owner;
ghost use Rattle.lvm_session.specs.declared.open.Open.{Open};
ghost use Rattle.lvm_session.specs.Fields.{core_of};
ghost use Rattle.lvm_session.specs.Rooms.{HasRooms, SameRooms};
ghost use Rattle.lvm_session.specs.State.{state};
ghost use Rattle.lvm_session.specs.Events.{IsDueAt, begun_as, flown};
ghost use Rattle.lvm_moves.specs.Launching.{MayLaunch, MayStartData, StartGives};

use crate::launch::{add_flight, end_dark, take_free};
use crate::loading::load;
use lvm_disk::{Shelf, Started};
use lvm_history::History;
use lvm_num::Pbuf;
use lvm_path::{Ask, Target};
use lvm_session::{Open, Owner, Session, Turned};

// The buffer with the blocks of a write, or for a read as it is.
fn loaded(history: &History, place: u64, ask: &Ask, buf: Pbuf) -> Pbuf
    requires count { count_of ask.now ≤ 256 }
    requires within { place + count_of ask.now ≤ blocks_begun history.now.facts }
    requires long { length buf.sectors ≡ 256 }
    ensures number { result.number ≡ buf.number }
    ensures long { length result.sectors ≡ 256 }
    ensures blocks { is_write ask.now ≡ true → (k : ℕ) → k < count_of ask.now → slice_get result.sectors k ≡ slice_get (blocks_of history.now.facts) (place + k) }
{
    if ask.is_write() {
        load(history, place, ask.count(), buf)
    } else {
        buf
    }
}

// Starts a write or a read.
fn start<S: Shelf>(
    shelf: &mut S,
    write: bool,
    disk: u16,
    first: u64,
    count: u32,
    buf: Pbuf,
) -> Started
    requires range { IsRange (S.device shelf.old) disk first count }
    requires room { length (S.device shelf.old).flights < 1024 }
    ensures { GivesStart (S.device shelf.old) (S.device shelf.new) disk first count write buf result }
{
    if write {
        shelf.start_write(disk, first, count, buf)
    } else {
        shelf.start_read(disk, first, count, buf)
    }
}

fn begin_target(open: &mut Open, target: u8)
    requires { target < length open.old.request.targets.items }
    ensures { open.new ≡ begun_as target open.old }
{
    open.request.started(target);
}

// The target at a place of a request, from 0.
fn target_of(open: &Open, target: u8) -> Target
    requires { target < length open.now.request.targets.items }
    ensures { slice_get open.now.request.targets.items target ≡ Some result }
{
    open.request.targets[usize::from(target)]
}

// The transfer is under way.
fn begin_data(session: &mut Session, ticket: u64, disk: u16, place: usize, target: u8)
    requires room { vec_len session.old.flying < vec_capacity session.old.flying }
    requires due { IsDueAt (core_of session.old) place target }
    ensures core { (o : Open) → slice_get session.old.requests.items place ≡ Some o → core_of session.new ≡ record (core_of session.old) { flying = session.old.flying.items ++ flown ticket disk (owner.Data o.request.id target) ∷ []; requests = slice_set session.old.requests.items place (begun_as target o) } }
    ensures rooms { SameRooms session.old session.new }
{
    let id = session.requests[place].request.id;
    add_flight(
        &mut session.flying,
        ticket,
        disk,
        Owner::Data { id, target },
    );
    begin_target(&mut session.requests[place], target);
}

/// The transfer of the target, from 0, of the request at a place of the table is started, as it is its turn, with
/// a buffer of the pool; a write carries its blocks. Answers `Moved`, or `Dark` where the power is found off.
pub fn start_data<S: Shelf>(
    session: &mut Session,
    shelf: &mut S,
    place: usize,
    target: u8,
) -> Turned
    requires may { MayLaunch (S.device shelf.old) (core_of session.old) }
    requires rooms { HasRooms session.old }
    requires starts { MayStartData (S.device shelf.old) (core_of session.old) place target }
    ensures gives { StartGives (event.StartData place target) (state (S.device shelf.old) (core_of session.old)) (state (S.device shelf.new) (core_of session.new)) result }
    ensures rooms { SameRooms session.old session.new }
{
    let buf = take_free(&mut session.pool);
    let open = &session.requests[place];
    let (ask, aim) = (open.request.ask, target_of(open, target));
    let buf = loaded(&session.history, open.place, &ask, buf);
    match start(
        shelf,
        ask.is_write(),
        aim.pp.disk,
        aim.sector,
        ask.count(),
        buf,
    ) {
        Started::Dark(buf) => {
            end_dark(session, buf);
            Turned::Dark
        }
        Started::Ticket(ticket) => {
            begin_data(session, ticket, aim.pp.disk, place, target);
            Turned::Moved
        }
    }
}
