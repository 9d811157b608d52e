//! A request lands.
ghost use Rattle.std.specs.Prelude.{◌≡◌, ◌≤◌, ◌<◌, length, slice_get, take, true, Some};
ghost use Rattle.lvm_disk.specs.Device.{Device};
ghost use Rattle.lvm_vol.specs.Facts.{Landed};
ghost use Rattle.lvm_vol.specs.Log.{awaited, is_open, request_of, with_fact};
ghost use Rattle.lvm_vol.specs.declared.entry.Outcome.TheVariants as outcome;
ghost use Rattle.lvm_path.specs.declared.facts.Next.TheVariants as next;
ghost use Rattle.lvm_session.specs.declared.open.Open.{Open};
ghost use Rattle.lvm_session.specs.Fields.{core_of};
ghost use Rattle.lvm_session.specs.Judging.{next_for};
ghost use Rattle.lvm_session.specs.Rooms.{SameRooms};
ghost use Rattle.lvm_session.specs.State.{state};
ghost use Rattle.lvm_session.specs.Events.{Lands, got_blocks, landed_as};
ghost use Rattle.lvm_session.specs.Sound.{IsGoing};
ghost use Rattle.lvm_moves.specs.Entered.{IsEntered};

use crate::front::front;
use lvm_due::below::unpin;
use lvm_history::History;
use lvm_num::Pbuf;
use lvm_session::{Open, Session, give_back};
use lvm_vol::Outcome;

// It has landed so; what it had in hand is handed out.
fn land_open(open: &mut Open, how: Outcome) -> Option<Pbuf>
    ensures open { open.new ≡ landed_as how open.old }
    ensures got { result ≡ open.old.got }
{
    open.request.landed();
    open.landed = Some(how);
    open.got.take()
}

// Enters that a read has landed with the first blocks of a buffer.
fn enter_read(history: &mut History, id: u64, count: u32, buf: &Pbuf)
    requires count { count ≤ 256 }
    requires awaited { awaited history.old.facts id ≡ Some count }
    ensures { history.new ≡ with_fact history.old (Landed (request_of history.old.facts id) outcome.Got true (take count buf.now.sectors)) }
{
    history.land_read(id, front(buf, count));
}

// Enters that a request has landed, with what it has got.
fn enter_landing(
    history: &mut History,
    id: u64,
    count: u32,
    how: Outcome,
    started: bool,
    got: &Option<Pbuf>,
)
    requires open { is_open history.old.facts id ≡ true }
    requires entered { IsEntered history.old.facts id count how started got.now }
    ensures { history.new ≡ with_fact history.old (Landed (request_of history.old.facts id) how started (got_blocks count got.now)) }
{
    match got {
        None => history.land(id, how, started),
        Some(buf) => enter_read(history, id, count, buf),
    }
}

/// The request at a place of the table lands, as it does next. The history tells so, with the blocks of a
/// read; its place in the hold queue, its pin and its buffer are given up.
pub fn land_at(session: &mut Session, place: usize, how: Outcome)
    requires going { IsGoing (core_of session.old) }
    requires there { place < length session.old.requests.items }
    requires lands { (o : Open) → slice_get session.old.requests.items place ≡ Some o → next_for (core_of session.old) o ≡ next.Land how }
    ensures lands { (device : Device) → Lands (state device (core_of session.old)) (state device (core_of session.new)) place how }
    ensures rooms { SameRooms session.old session.new }
{
    let open = &session.requests[place];
    let (id, ask) = (open.request.id, open.request.ask);
    let (pinned, started) = (open.request.pinned, open.request.has_started());
    let got = land_open(&mut session.requests[place], how);
    enter_landing(&mut session.history, id, ask.count(), how, started, &got);
    give_back(&mut session.pool, got);
    unpin(&mut session.cache, pinned, &ask);
    session.queue.leave(2 * id);
}
