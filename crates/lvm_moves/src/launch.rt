//! What each start of a transfer does: takes a buffer, and adds what is out.
ghost use Rattle.std.specs.Prelude.{◌≡◌, ◌<◌, ◌++◌, ◌∷◌, [], false, true, length, not, slice_set, vec_capacity, vec_len};
ghost use Rattle.std.specs.List.{list_any};
ghost use Rattle.lvm_pbuf.specs.Out.{IsOut, TakesLowest};
ghost use Rattle.lvm_session.specs.Fields.{core_of};
ghost use Rattle.lvm_session.specs.Rooms.{SameRooms};
ghost use Rattle.lvm_session.specs.Dark.{all_dark};
ghost use Rattle.lvm_session.specs.Events.{flown};
ghost use Rattle.lvm_session.specs.Hands.{MayEnd};

use lvm_num::Pbuf;
use lvm_pbuf::Pool;
use lvm_session::{Flown, Owner, Session, darken};

/// A buffer of a pool in which one is: that of the lowest number, of 256 sectors, whatever these hold.
pub fn take_free(pool: &mut Pool) -> Pbuf
    requires { list_any not pool.old ≡ true }
    ensures taken { TakesLowest pool.old pool.new result.number }
    ensures long { length result.sectors ≡ 256 }
{
    match pool.take() {
        Some(buf) => whole(buf),
        None => unreachable!(),
    }
}

// The buffer, of which it is said that it has 256 sectors.
fn whole(buf: Pbuf) -> Pbuf
    ensures number { result.number ≡ buf.number }
    ensures long { length result.sectors ≡ 256 }
{
    let _whole = buf.is_whole();
    buf
}

/// Adds a transfer to those that are out, for which there is room.
pub fn add_flight(flying: &mut Vec<Flown>, ticket: u64, disk: u16, owner: Owner)
    requires { vec_len flying.old < vec_capacity flying.old }
    ensures items { flying.new.items ≡ flying.old.items ++ flown ticket disk owner ∷ [] }
    ensures capacity { vec_capacity flying.new ≡ vec_capacity flying.old }
{
    let row = Flown {
        ticket,
        disk,
        owner,
    };
    match flying.insert(flying.len(), row) {
        Ok(()) => {}
        Err(_) => unreachable!(),
    }
}

/// The power is found off at a start: its buffer comes back, and the session is over.
pub fn end_dark(session: &mut Session, buf: Pbuf)
    requires out { IsOut session.old.pool buf.number }
    requires may { MayEnd (record (core_of session.old) { pool = slice_set session.old.pool buf.number false }) }
    ensures core { core_of session.new ≡ all_dark (record (core_of session.old) { pool = slice_set session.old.pool buf.number false }) }
    ensures rooms { SameRooms session.old session.new }
{
    session.pool.give(buf);
    darken(session);
}
