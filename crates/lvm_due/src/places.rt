//! The places of requests at which events may have become due.
ghost use Rattle.std.specs.Prelude.{◌≡◌, ◌<◌, ◌+◌, ◌^◌, length};
ghost use Rattle.lvm_due.specs.Due.{is_freed, overlap, waits_entry, waits_entry_if, AddsIf, Covers, HoldsPin, Joins};
ghost use Rattle.lvm_session.specs.Fields.{core_of};

use crate::span::Span;
use lvm_path::{Ask, Phase};
use lvm_session::{Open, Session};

/// The places of another span are added.
pub fn join(span: &mut Span, other: Span)
    ensures { Joins other span.old span.new }
{
    if other.from < other.to {
        span.add(other.from);
        span.add(other.to - 1);
    }
}

/// A place is added, where this is so.
pub fn add_if(span: &mut Span, place: usize, is: bool)
    requires { place + 1 < 2 ^ 64 }
    ensures { AddsIf is place span.old span.new }
{
    if is {
        span.add(place);
    }
}

// Whether it waits for an entry of the cache.
fn waits_entry(open: &Open) -> bool
    ensures { result ≡ waits_entry open.now }
{
    matches!(open.request.phase, Phase::WantEntry)
}

/// All places of those that wait for an entry of the cache. Others may be among them.
pub fn entries(session: &Session) -> Span
    ensures { Covers waits_entry session.now.requests.items (length session.now.requests.items) result }
{
    let mut span = Span::all(0);
    for place in 0..session.requests.len() {
        add_if(&mut span, place, waits_entry(&session.requests[place]));
    }
    span
}

/// Whether the request at a place holds a pin of its track group.
pub fn holds_pin(session: &Session, place: usize) -> bool
    requires { place < length session.now.requests.items }
    ensures { HoldsPin (core_of session.now) place result }
{
    session.requests[place].request.pinned
}

/// These places, where the request that has changed held a pin; else none has to be there.
pub fn entries_if(session: &Session, pinned: bool) -> Span
    ensures { Covers (waits_entry_if pinned) session.now.requests.items (length session.now.requests.items) result }
{
    if pinned {
        entries(session)
    } else {
        Span::all(0)
    }
}

// Whether some block of one volume is a block of both.
fn overlap(a: &Ask, b: &Ask) -> bool
    ensures { result ≡ overlap a.now b.now }
{
    let a_end = u128::from(a.at()) + u128::from(a.count());
    let b_end = u128::from(b.at()) + u128::from(b.count());
    a.lv() == b.lv() && u128::from(a.at()) < b_end && u128::from(b.at()) < a_end
}

// Whether it isn't admitted, and some block is one of these.
fn is_freed(ask: &Ask, open: &Open) -> bool
    ensures { result ≡ is_freed ask.now open.now }
{
    matches!(open.request.phase, Phase::Held) && overlap(ask, &open.request.ask)
}

/// All places of those that aren't admitted, and that a request for these blocks may have held back. Others may be among
/// them.
pub fn freed_by(session: &Session, ask: &Ask) -> Span
    ensures { Covers (is_freed ask.now) session.now.requests.items (length session.now.requests.items) result }
{
    let mut span = Span::all(0);
    for place in 0..session.requests.len() {
        add_if(&mut span, place, is_freed(ask, &session.requests[place]));
    }
    span
}
