//! Whether the move of a copy is done.
ghost use Rattle.std.specs.Prelude.{◌≡◌, unwrap_or};
ghost use Rattle.lvm_num.specs.Status.{calls_stale};
ghost use Rattle.lvm_due.specs.passed.Session.{core_of, is_held_by_move, is_held_stale, is_move_done, is_past_held, is_under_way, stays_fresh};

use crate::below::{Open, Session};
use crate::pending::is_waiting;
use crate::standing::{is_beside_copy, is_running, is_stale, is_wanted_stale, is_whole};
use lvm_num::Pp;
use lvm_path::{Ask, Phase};
use lvm_session::OpenCopy;

// Whether the status in flight calls it stale, or the committed one where none is.
fn is_called_next(session: &Session, pp: Pp) -> bool
    ensures { result ≡ calls_stale (unwrap_or session.now.updater.in_flight session.now.updater.committed) pp }
{
    match session.updater.in_flight() {
        None => session.updater.committed().is_stale(pp),
        Some(flying) => flying.is_stale(pp),
    }
}

/// Whether the committed status calls it stale, or the one in flight.
pub fn is_held_stale(session: &Session, pp: Pp) -> bool
    ensures { result ≡ is_held_stale (core_of session.now) pp }
{
    is_stale(session, pp) || is_called_next(session, pp)
}

/// Whether neither the committed status calls it stale nor the one in flight, and nothing wants it so.
pub fn stays_fresh(session: &Session, pp: Pp) -> bool
    ensures { result ≡ stays_fresh (core_of session.now) pp }
{
    !is_held_stale(session, pp) && !is_wanted_stale(session, pp)
}

// Whether a request of this phase is admitted and hasn't landed.
fn is_past_held(phase: Phase) -> bool
    ensures { result ≡ is_past_held phase }
{
    match phase {
        Phase::Held | Phase::Landed => false,
        Phase::WantEntry | Phase::WantRecord | Phase::Data | Phase::WantStatus => true,
    }
}

// Whether some request that goes over the logical partition of the copy is admitted and hasn't landed.
fn is_under_way(session: &Session, copy: &OpenCopy) -> bool
    ensures { result ≡ is_under_way (core_of session.now) copy.now }
{
    for open in &session.requests {
        if is_waiting(open)
            && is_past_held(open.request.phase)
            && is_beside_copy(session, &open.request.ask, copy)
        {
            return true;
        }
    }
    false
}

/// Whether all of it is copied, its destination is fresh by each status, and nothing is under way on its logical
/// partition.
pub fn is_move_done(session: &Session, copy: &OpenCopy) -> bool
    ensures { result ≡ is_move_done (core_of session.now) copy.now }
{
    copy.moves
        && is_running(copy)
        && is_whole(session, copy)
        && stays_fresh(session, copy.pp)
        && !is_under_way(session, copy)
}

/// Whether the move of a copy of the request's logical partition is done.
pub fn is_held_by_move(session: &Session, ask: &Ask) -> bool
    ensures { result ≡ is_held_by_move (core_of session.now) ask.now }
{
    match &session.copy {
        None => false,
        Some(copy) => is_beside_copy(session, ask, copy) && is_move_done(session, copy),
    }
}
