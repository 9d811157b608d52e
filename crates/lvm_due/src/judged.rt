//! How the targets of a request count.
ghost use Rattle.std.specs.Prelude.{◌≡◌, ◌||◌, not};
ghost use Rattle.std.specs.List.{list_all};
ghost use Rattle.lvm_path.specs.declared.target.Target.{Target};
ghost use Rattle.lvm_due.specs.passed.Session.{core_of, all_but_sure, counts_failed, is_kept, is_marked, is_settled, is_sure_at};

use crate::below::Session;
use crate::standing::{is_settled, is_sure, is_wanted_stale};
use lvm_path::below::TargetState;
use lvm_path::{Request, Target};

/// Whether a target counts as failed: its transfer failed, or it was usable when it was chosen and is wanted
/// stale.
pub fn counts_failed(session: &Session, target: &Target) -> bool
    ensures { result ≡ counts_failed (core_of session.now) target.now }
{
    matches!(target.state, TargetState::Failed)
        || target.usable && is_wanted_stale(session, target.pp)
}

/// Whether a target is sure, and no destination of a move.
pub fn is_sure_at(session: &Session, target: &Target) -> bool
    ensures { result ≡ is_sure_at (core_of session.now) target.now }
{
    !target.moves && is_sure(session, target.pp)
}

/// Whether a target that is sure has succeeded.
pub fn is_kept(session: &Session, request: &Request) -> bool
    ensures { result ≡ is_kept (core_of session.now) request.now }
{
    request.targets.iter().any(|target| matches!(target.state, TargetState::Done)
        && is_sure_at(session, target))
}

/// Whether the staleness that is due of a write is settled.
pub fn is_marked(session: &Session, request: &Request) -> bool
    ensures { result ≡ is_marked (core_of session.now) request.now }
{
    if is_kept(session, request) {
        are_failed_settled(session, &request.targets)
    } else {
        are_settled_but_one(session, &request.targets)
    }
}

fn are_failed_settled(session: &Session, targets: &[Target]) -> bool
    ensures { result ≡ list_all (λ (t : Target). not (counts_failed (core_of session.now) t) || is_settled (core_of session.now) t.pp) targets.now }
{
    for target in targets {
        if counts_failed(session, target) && !is_settled(session, target.pp) {
            return false;
        }
    }
    true
}

// Whether all but the first that is sure are settled.
fn are_settled_but_one(session: &Session, targets: &[Target]) -> bool
    ensures { result ≡ list_all (λ (t : Target). is_settled (core_of session.now) t.pp) (all_but_sure (core_of session.now) targets.now) }
{
    let mut sure = false;
    for target in targets {
        if !sure && is_sure_at(session, target) {
            sure = true;
        } else if !is_settled(session, target.pp) {
            return false;
        }
    }
    true
}
