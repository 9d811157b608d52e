//! The first note that a request lacks.
ghost use Rattle.std.specs.Prelude.{◌≡◌, ◌&&◌, ◌<◌, ◌^◌, find, is_none, length, not, slice_get, Some};
ghost use Rattle.std.specs.Option.{option_map};
ghost use Rattle.lvm_due.specs.passed.Session.{flight_on, is_named, Open, core_of, is_missing, first_from, note_at, note_due, IsGoing};
ghost use Rattle.lvm_path.specs.Asks.{at_of};
ghost use Rattle.lvm_path.specs.declared.target.Target.{Target};
ghost use Rattle.lvm_due.specs.Spans.{Spans};

use crate::below::{Event, Open, Session};
use crate::span::Span;
use crate::standing::{group_of, is_missing};
use lvm_path::{Phase, Target};

// Whether a note may be started on the disk of a target, and doesn't name this track group of the volume.
fn is_unnamed(session: &Session, lv: u16, group: u32, target: &Target) -> bool
    ensures { result ≡ (not (is_missing (core_of session.now) target.now.pp.disk) && is_none (flight_on session.now.cache target.now.pp.disk) && not (is_named session.now.cache target.now.pp.disk lv group)) }
{
    let disk = target.pp.disk;
    !session.cache.has_note_in_flight(disk)
        && !is_missing(session, disk)
        && !session.cache.is_named(disk, lv, group)
}

// The first such disk.
fn first_unnamed(session: &Session, lv: u16, group: u32, targets: &[Target]) -> Option<u16>
    ensures { result ≡ option_map (λ (t : Target). t.pp.disk) (find (λ (t : Target). not (is_missing (core_of session.now) t.pp.disk) && is_none (flight_on session.now.cache t.pp.disk) && not (is_named session.now.cache t.pp.disk lv group)) targets.now) }
{
    match targets
        .iter()
        .find(|target| is_unnamed(session, lv, group, target))
    {
        None => None,
        Some(target) => Some(target.pp.disk),
    }
}

/// The first disk on which a request that has pinned its track group lacks a note, where one may be started.
pub fn note_due(session: &Session, open: &Open) -> Option<u16>
    requires { at_of open.now.request.ask < 2 ^ 40 }
    ensures { result ≡ note_due (core_of session.now) open.now }
{
    let request = &open.request;
    if !matches!(request.phase, Phase::WantRecord) || !request.pinned {
        return None;
    }
    first_unnamed(
        session,
        request.ask.lv(),
        group_of(&request.ask),
        &request.targets,
    )
}

fn note_at(session: &Session, place: usize) -> Option<Event>
    requires going { IsGoing (core_of session.now) }
    requires there { place < length session.now.requests.items }
    ensures { (o : Open) → slice_get session.now.requests.items place ≡ Some o → result ≡ note_at (core_of session.now) place o }
{
    match note_due(session, &session.requests[place]) {
        None => None,
        Some(disk) => Some(Event::StartNote { place, disk }),
    }
}

/// The first note that is due, whether or not a buffer is there for it.
pub fn first_note(session: &Session, span: &mut Span) -> Option<Event>
    requires going { IsGoing (core_of session.now) }
    requires span { Spans (note_at (core_of session.now)) session.now.requests.items span.old }
    ensures first { result ≡ first_from (note_at (core_of session.now)) 0 session.now.requests.items }
    ensures span { Spans (note_at (core_of session.now)) session.now.requests.items span.new }
{
    while span.from < span.to {
        let note = note_at(session, span.from);
        if note.is_some() {
            return note;
        }
        span.from += 1;
    }
    None
}
