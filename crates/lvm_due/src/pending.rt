//! What is pending on a logical partition.
ghost use Rattle.std.specs.Prelude.{◌≡◌, ◌*◌, ◌<◌, ◌^◌, ◌&&◌, ◌==◌, not};
ghost use Rattle.std.specs.List.{list_any};
ghost use Rattle.lvm_num.specs.declared.place.Pp.{Pp};
ghost use Rattle.lvm_num.specs.Descriptor.{IsValid};
ghost use Rattle.lvm_num.specs.Geometry.{partition_blocks};
ghost use Rattle.lvm_path.specs.declared.target.Target.{Target};
ghost use Rattle.lvm_path.specs.Asks.{at_of};
ghost use Rattle.lvm_due.specs.passed.Session.{Open, core_of, IsWithinVolume, counts_failed, is_beside, is_failing, is_pending, is_settled, is_waiting, is_wanted_stale, lp_of};
ghost use Rattle.lvm_due.specs.Due.{NoneFails};

use crate::below::{Open, Session};
use crate::facts_places::partition_blocks;
use crate::judged::counts_failed;
use crate::moved::is_held_by_move;
use crate::standing::{copies_for, is_settled, is_wanted_stale, lp_of};
use lvm_num::Pp;
use lvm_path::{Ask, Request, Target};

/// Whether a request hasn't landed.
pub fn is_waiting(open: &Open) -> bool
    ensures { result ≡ is_waiting open.now }
{
    open.landed.is_none()
}

fn any_counts_failed(session: &Session, targets: &[Target]) -> bool
    ensures { result ≡ list_any (counts_failed (core_of session.now)) targets.now }
{
    for target in targets {
        if counts_failed(session, target) {
            return true;
        }
    }
    false
}

/// Whether it is a write that has started its data, has a target that counts as failed, and hasn't landed.
pub fn is_failing(session: &Session, open: &Open) -> bool
    ensures { result ≡ is_failing (core_of session.now) open.now }
{
    is_waiting(open)
        && open.request.ask.is_write()
        && open.request.has_started()
        && any_counts_failed(session, &open.request.targets)
}

/// Whether some write is.
pub fn any_is_failing(session: &Session) -> bool
    ensures { result ≡ list_any (is_failing (core_of session.now)) session.now.requests.items }
{
    session
        .requests
        .iter()
        .any(|open| is_failing(session, open))
}

fn any_is_unsettled(session: &Session, pps: &[Pp]) -> bool
    ensures { result ≡ list_any (λ (p : Pp). is_wanted_stale (core_of session.now) p && not (is_settled (core_of session.now) p)) pps.now }
{
    for pp in pps {
        if is_wanted_stale(session, *pp) && !is_settled(session, *pp) {
            return true;
        }
    }
    false
}

// The first block, in its volume, of the logical partition in which a request lies.
fn first_block(session: &Session, ask: &Ask) -> u64
    requires valid { IsValid session.now.descriptor }
    requires fits { at_of ask.now < 2 ^ 40 }
    ensures first { result ≡ lp_of (core_of session.now) ask.now * partition_blocks session.now.descriptor.mib }
    ensures fits { result < 2 ^ 40 }
{
    lp_of(session, ask) * partition_blocks(session.descriptor.mib)
}

// Whether two requests lie in one logical partition; that of the second begins at block `first`.
#[tactic(auto, using(crate::proofs::Parting::same_partition))]
fn is_beside(session: &Session, a: &Ask, b: &Ask, first: u64) -> bool
    requires valid { IsValid session.now.descriptor }
    requires first { first ≡ lp_of (core_of session.now) b.now * partition_blocks session.now.descriptor.mib }
    requires fits { first < 2 ^ 40 }
    ensures { result ≡ is_beside (core_of session.now) a.now b.now }
{
    a.lv() == b.lv() && first <= a.at() && a.at() < first + partition_blocks(session.descriptor.mib)
}

// Whether another write in its logical partition is failing: none is looked for where it is known that none is.
fn any_fails_beside(session: &Session, request: &Request, unfailing: bool) -> bool
    requires valid { IsValid session.now.descriptor }
    requires unfailing { NoneFails (core_of session.now) unfailing }
    requires fits { at_of request.now.ask < 2 ^ 40 }
    ensures { result ≡ list_any (λ (e : Open). not (e.request.id == request.now.id) && is_beside (core_of session.now) e.request.ask request.now.ask && is_failing (core_of session.now) e) session.now.requests.items }
{
    if unfailing {
        return false;
    }
    let first = first_block(session, &request.ask);
    for other in &session.requests {
        if is_beside(session, &other.request.ask, &request.ask, first)
            && other.request.id != request.id
            && is_failing(session, other)
        {
            return true;
        }
    }
    false
}

/// Whether staleness of a copy of its logical partition is wanted and not settled, another write there is failing,
/// or a move of a copy of it is done.
pub fn is_pending(session: &Session, request: &Request, unfailing: bool) -> bool
    requires valid { IsValid session.now.descriptor }
    requires within { IsWithinVolume session.now.descriptor request.now.ask }
    requires unfailing { NoneFails (core_of session.now) unfailing }
    ensures { result ≡ is_pending (core_of session.now) request.now }
{
    is_held_by_move(session, &request.ask)
        || any_is_unsettled(session, copies_for(session, &request.ask))
        || any_fails_beside(session, request, unfailing)
}
