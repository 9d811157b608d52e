//! What a request might do next, as far as that shows without its facts.
ghost use Rattle.std.specs.Prelude.{◌≡◌};
ghost use Rattle.lvm_num.specs.Descriptor.{IsValid};
ghost use Rattle.lvm_due.specs.passed.Session.{core_of, IsWithinVolume};
ghost use Rattle.lvm_due.specs.Might.{any_is_usable, any_waits, are_at_rest, might_admit, might_land, might_pin, might_start, might_transfer, none_goes};

use crate::below::Session;
use crate::facts::{has_names, has_usable, is_changed, is_unbegun};
use crate::standing::is_usable;
use lvm_path::{Phase, Request, Target, any_flies, any_is_done};
use lvm_sched::TargetState;

// Whether the transfer of one of them isn't started.
fn any_waits(targets: &[Target]) -> bool
    ensures { result ≡ any_waits targets.now }
{
    targets
        .iter()
        .any(|target| matches!(target.state, TargetState::Waiting))
}

// Whether none of their transfers is under way or has ended well.
fn none_goes(targets: &[Target]) -> bool
    ensures { result ≡ none_goes targets.now }
{
    !any_is_done(targets) && !any_flies(targets)
}

/// Whether the transfer of one of them has ended well, or none is under way.
pub fn are_at_rest(targets: &[Target]) -> bool
    ensures { result ≡ are_at_rest targets.now }
{
    any_is_done(targets) || !any_flies(targets)
}

// Whether one of the copies to which a request goes is usable.
fn any_is_usable(session: &Session, targets: &[Target]) -> bool
    ensures { result ≡ any_is_usable (core_of session.now) targets.now }
{
    targets
        .iter()
        .any(|target| !target.moves && is_usable(session, target.pp))
}

// Whether it might land: no copy is usable of one that hasn't started its data, or its transfers may have ended.
pub fn might_land(session: &Session, request: &Request) -> bool
    requires valid { IsValid session.now.descriptor }
    requires within { IsWithinVolume session.now.descriptor request.now.ask }
    ensures { result ≡ might_land (core_of session.now) request.now }
{
    match request.phase {
        Phase::Held => !has_usable(session, &request.ask),
        Phase::WantEntry | Phase::WantRecord => !any_is_usable(session, &request.targets),
        Phase::Data => {
            if request.ask.is_write() {
                is_unbegun(request) && !any_is_usable(session, &request.targets)
            } else {
                are_at_rest(&request.targets)
            }
        }
        Phase::WantStatus => true,
        Phase::Landed => false,
    }
}

// Whether it might be admitted, or admitted again: it is held, or hasn't started its data, and its targets are others.
pub fn might_admit(session: &Session, request: &Request) -> bool
    requires valid { IsValid session.now.descriptor }
    requires within { IsWithinVolume session.now.descriptor request.now.ask }
    ensures { result ≡ might_admit (core_of session.now) request.now }
{
    match request.phase {
        Phase::Held => true,
        Phase::WantEntry | Phase::WantRecord => is_changed(session, request),
        Phase::Data => is_unbegun(request) && is_changed(session, request),
        Phase::WantStatus | Phase::Landed => false,
    }
}

/// Whether it might pin its track group: it waits for an entry.
pub fn might_pin(request: &Request) -> bool
    ensures { result ≡ might_pin request.now }
{
    matches!(request.phase, Phase::WantEntry) && !request.pinned
}

/// Whether a transfer of a request whose data may go might be started: one isn't started, and a read tries one after the
/// other.
pub fn might_transfer(request: &Request) -> bool
    ensures { result ≡ might_transfer request.now }
{
    any_waits(&request.targets) && (request.ask.is_write() || none_goes(&request.targets))
}

// Whether a transfer of it might be started: it waits for its record, and notes name its track group; or its data may go,
// and a transfer isn't started.
pub fn might_start(session: &Session, request: &Request) -> bool
    requires within { IsWithinVolume session.now.descriptor request.now.ask }
    ensures { result ≡ might_start (core_of session.now) request.now }
{
    match request.phase {
        Phase::WantRecord => has_names(session, request),
        Phase::Data => might_transfer(request),
        Phase::Held | Phase::WantEntry | Phase::WantStatus | Phase::Landed => false,
    }
}
