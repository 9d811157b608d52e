//! The first request that an event of a kind may be made of.
ghost use Rattle.std.specs.Prelude.{◌≡◌, ◌<◌, length, slice_get, Some};
ghost use Rattle.lvm_due.specs.passed.Session.{Open, core_of, admission, admission_at, data_at, first_from, landing, landing_at, IsGoing};
ghost use Rattle.lvm_due.specs.Due.{NoneFails};
ghost use Rattle.lvm_due.specs.Spans.{Spans};

use crate::below::{Event, Session};
use crate::next::next_at;
use crate::phases::{might_admit, might_land, might_start};
use crate::span::Span;
use lvm_path::Next;

fn landing_at(session: &Session, place: usize, unfailing: bool) -> Option<Event>
    requires going { IsGoing (core_of session.now) }
    requires unfailing { NoneFails (core_of session.now) unfailing }
    requires there { place < length session.now.requests.items }
    ensures { (o : Open) → slice_get session.now.requests.items place ≡ Some o → result ≡ landing_at (core_of session.now) place o }
{
    if !might_land(session, &session.requests[place].request) {
        return None;
    }
    match next_at(session, place, unfailing) {
        Next::Land { outcome } => Some(Event::Land { place, outcome }),
        Next::Wait | Next::Admit | Next::Pin | Next::Start { .. } => None,
    }
}

/// The first request that may land, with its outcome.
pub fn first_landing(session: &Session, unfailing: bool, span: &mut Span) -> Option<Event>
    requires going { IsGoing (core_of session.now) }
    requires unfailing { NoneFails (core_of session.now) unfailing }
    requires span { Spans (landing_at (core_of session.now)) session.now.requests.items span.old }
    ensures first { result ≡ landing (core_of session.now) }
    ensures span { Spans (landing_at (core_of session.now)) session.now.requests.items span.new }
{
    while span.from < span.to {
        let landing = landing_at(session, span.from, unfailing);
        if landing.is_some() {
            return landing;
        }
        span.from += 1;
    }
    None
}

fn admission_at(session: &Session, place: usize, unfailing: bool) -> Option<Event>
    requires going { IsGoing (core_of session.now) }
    requires unfailing { NoneFails (core_of session.now) unfailing }
    requires there { place < length session.now.requests.items }
    ensures { (o : Open) → slice_get session.now.requests.items place ≡ Some o → result ≡ admission_at (core_of session.now) place o }
{
    if !might_admit(session, &session.requests[place].request) {
        return None;
    }
    match next_at(session, place, unfailing) {
        Next::Admit => Some(Event::Admit { place }),
        Next::Wait | Next::Pin | Next::Start { .. } | Next::Land { .. } => None,
    }
}

/// The first request that may be admitted.
pub fn first_admission(session: &Session, unfailing: bool, span: &mut Span) -> Option<Event>
    requires going { IsGoing (core_of session.now) }
    requires unfailing { NoneFails (core_of session.now) unfailing }
    requires span { Spans (admission_at (core_of session.now)) session.now.requests.items span.old }
    ensures first { result ≡ admission (core_of session.now) }
    ensures span { Spans (admission_at (core_of session.now)) session.now.requests.items span.new }
{
    while span.from < span.to {
        let admission = admission_at(session, span.from, unfailing);
        if admission.is_some() {
            return admission;
        }
        span.from += 1;
    }
    None
}

fn data_at(session: &Session, place: usize, unfailing: bool) -> Option<Event>
    requires going { IsGoing (core_of session.now) }
    requires unfailing { NoneFails (core_of session.now) unfailing }
    requires there { place < length session.now.requests.items }
    ensures { (o : Open) → slice_get session.now.requests.items place ≡ Some o → result ≡ data_at (core_of session.now) place o }
{
    if !might_start(session, &session.requests[place].request) {
        return None;
    }
    match next_at(session, place, unfailing) {
        Next::Start { target } => Some(Event::StartData { place, target }),
        Next::Wait | Next::Admit | Next::Pin | Next::Land { .. } => None,
    }
}

/// The first transfer of a request that is due, whether or not a buffer is there for it.
pub fn first_data(session: &Session, unfailing: bool, span: &mut Span) -> Option<Event>
    requires going { IsGoing (core_of session.now) }
    requires unfailing { NoneFails (core_of session.now) unfailing }
    requires span { Spans (data_at (core_of session.now)) session.now.requests.items span.old }
    ensures first { result ≡ first_from (data_at (core_of session.now)) 0 session.now.requests.items }
    ensures span { Spans (data_at (core_of session.now)) session.now.requests.items span.new }
{
    while span.from < span.to {
        let data = data_at(session, span.from, unfailing);
        if data.is_some() {
            return data;
        }
        span.from += 1;
    }
    None
}
