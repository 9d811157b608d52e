//! Who waits for whom.
ghost use Rattle.std.specs.Prelude.{◌≡◌, ◌<◌, ◌^◌};
ghost use Rattle.lvm_due.specs.passed.Session.{core_of, held_of, is_held_back};
ghost use Rattle.lvm_due.specs.Queued.{IsQueued};

use crate::below::{Held, Session};
use lvm_path::{Ask, Request};

/// What a request asks of the hold queue.
pub fn held_of(ask: &Ask) -> Held
    ensures { result ≡ held_of ask.now }
{
    Held {
        lv: ask.lv(),
        at: ask.at(),
        count: ask.count(),
        write: ask.is_write(),
        copy: false,
    }
}

/// Whether an earlier request that hasn't landed, or an earlier step of the copy that is open, conflicts with
/// one that waits.
pub fn is_held_back(session: &Session, request: &Request) -> bool
    requires id { request.now.id < 2 ^ 32 }
    requires queued { IsQueued (core_of session.now) request.now }
    ensures { result ≡ is_held_back (core_of session.now) request.now }
{
    session.queue.blocked_by(2 * request.id).is_some()
}
