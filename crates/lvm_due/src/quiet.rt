//! Whether nothing but requests is under way.
ghost use Rattle.std.specs.Prelude.{◌≡◌, ◌<◌, ◌==◌, ℕ, true, length, position, slice_get, IfSome, Some};
ghost use Rattle.std.specs.List.{list_any};
ghost use Rattle.lvm_session.specs.declared.open.Open.{Open};
ghost use Rattle.lvm_session.specs.Fields.{core_of};
ghost use Rattle.lvm_session.specs.Dark.{IsAscending};
ghost use Rattle.lvm_session.specs.Judging.{counts_failed};
ghost use Rattle.lvm_session.specs.Sound.{IsGoing};
ghost use Rattle.lvm_due.specs.Due.{any_fails, WantsNothing, NoneFailsAt, NoneFailsFor};

use crate::below::counts_failed;
use lvm_path::Target;
use lvm_session::{Open, Owner, Session};

// Answers yes only where no copy is open, and nothing is wanted of the status that isn't committed.
fn is_calm(session: &Session) -> bool
    ensures { result ≡ true → WantsNothing (core_of session.now) }
{
    if session.copy.is_some() || session.updater.in_flight().is_some() {
        return false;
    }
    !session.updater.differs()
}

fn any_counts_failed(session: &Session, targets: &[Target]) -> bool
    ensures { result ≡ list_any (counts_failed (core_of session.now)) targets.now }
{
    targets.iter().any(|target| counts_failed(session, target))
}

fn fails(session: &Session, open: &Open) -> bool
    ensures { result ≡ any_fails (core_of session.now) open.now }
{
    any_counts_failed(session, &open.request.targets)
}

/// Whether a target of the request at a place counts as failed.
pub fn any_fails(session: &Session, place: usize) -> bool
    requires { place < length session.now.requests.items }
    ensures { (o : Open) → slice_get session.now.requests.items place ≡ Some o → result ≡ any_fails (core_of session.now) o }
{
    fails(session, &session.requests[place])
}

// Looks for the request of a number through the table.
fn position_of(requests: &[Open], id: u64) -> Option<usize>
    ensures { result ≡ position (λ (o : Open). o.request.id == id) requests.now }
{
    requests.iter().position(|open| open.request.id == id)
}

// Where it stands if all requests between it and the first are open.
fn likely_place(requests: &[Open], id: u64) -> usize {
    match requests.first() {
        None => 0,
        Some(first) => id.saturating_sub(first.request.id) as usize,
    }
}

// Whether the request at a place, if there is one, has this number.
fn stands_at(requests: &[Open], place: usize, id: u64) -> bool
    ensures within { result ≡ true → place < length requests.now }
    ensures its { result ≡ true → IsAscending requests.now → position (λ (o : Open). o.request.id == id) requests.now ≡ Some place }
{
    place < requests.len() && requests[place].request.id == id
}

// The place of the request of a number in a table in which the numbers ascend.
fn place_in(requests: &[Open], id: u64) -> Option<usize>
    ensures within { IfSome result (λ k. k < length requests.now) }
    ensures place { IsAscending requests.now → result ≡ position (λ (o : Open). o.request.id == id) requests.now }
{
    let likely = likely_place(requests, id);
    if stands_at(requests, likely, id) {
        Some(likely)
    } else {
        position_of(requests, id)
    }
}

/// The place of the request of a number, where the numbers ascend: it is looked for first where it likely stands.
pub fn place_of(session: &Session, id: u64) -> Option<usize>
    ensures within { IfSome result (λ k. k < length session.now.requests.items) }
    ensures place { IsAscending session.now.requests.items → result ≡ position (λ (o : Open). o.request.id == id) session.now.requests.items }
{
    place_in(&session.requests, id)
}

/// Answers yes only where no copy is open, nothing is wanted of the status that isn't committed, and no target of the
/// request at a place counts as failed.
pub fn is_quiet(session: &Session, place: usize) -> bool
    requires { place < length session.now.requests.items }
    ensures { result ≡ true → NoneFailsAt (core_of session.now) place }
{
    if !is_calm(session) {
        return false;
    }
    !any_fails(session, place)
}

/// Answers yes only where it was so, and is.
pub fn stays_quiet(session: &Session, place: usize, quiet: bool) -> bool
    requires { place < length session.now.requests.items }
    ensures was { result ≡ true → quiet ≡ true }
    ensures is { result ≡ true → NoneFailsAt (core_of session.now) place }
{
    if !quiet {
        return false;
    }
    is_quiet(session, place)
}

// Answers yes only where it is so at this place, where there is one.
fn is_quiet_at(session: &Session, place: Option<usize>) -> bool
    requires { IfSome place (λ k. k < length session.now.requests.items) }
    ensures { result ≡ true → (k : ℕ) → place ≡ Some k → NoneFailsAt (core_of session.now) k }
{
    match place {
        None => false,
        Some(place) => is_quiet(session, place),
    }
}

/// Answers yes only where it is so at the place of the request whose transfer this is.
pub fn is_quiet_for(session: &Session, owner: Owner) -> bool
    ensures { IsGoing (core_of session.now) → result ≡ true → NoneFailsFor (core_of session.now) owner }
{
    match owner {
        Owner::Data { id, .. } => is_quiet_at(session, place_of(session, id)),
        Owner::Status { .. } | Owner::Note { .. } | Owner::Copy => false,
    }
}
