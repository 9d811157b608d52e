//! The facts of a request, and what it does by them.
ghost use Rattle.std.specs.Prelude.{◌≡◌, ◌≤◌, ◌<◌, ◌^◌, ◌&&◌, ◌||◌, false, length, not, unwrap_or};
ghost use Rattle.std.specs.List.{list_any, list_all};
ghost use Rattle.lvm_num.specs.Descriptor.{IsValid};
ghost use Rattle.lvm_num.specs.Status.{calls_dirty};
ghost use Rattle.lvm_due.specs.passed.Session.{is_named, core_of, IsWithinVolume, copies_for, facts_of, has_dirty_mark, has_names, is_changed, is_held_back, is_kept, is_marked, is_pending, is_usable, mode_of, next_for};
ghost use Rattle.lvm_path.specs.declared.target.Target.{Target};
ghost use Rattle.lvm_path.specs.declared.request.Phase.TheVariants as phase;
ghost use Rattle.lvm_path.specs.Asks.{at_of, is_write};
ghost use Rattle.lvm_path.specs.Next.{next_in, next_of};
ghost use Rattle.lvm_path.specs.Targets.{is_begun};
ghost use Rattle.lvm_due.specs.Due.{NoneFails};
ghost use Rattle.lvm_due.specs.Queued.{IsQueued};
ghost use Rattle.lvm_due.specs.Reading.{no_facts};

use crate::below::{Open, Session};
use crate::held::is_held_back;
use crate::judged::{is_kept, is_marked};
use crate::pending::is_pending;
use crate::standing::{
    are_targets, copies_for, destination_aim, group_in, group_of, is_usable, mode_of,
};
use lvm_num::{Mode, Pp};
use lvm_path::{Ask, Facts, Next, Phase, Request, Target};

/// Whether some copy of its logical partition is usable.
pub fn has_usable(session: &Session, ask: &Ask) -> bool
    requires valid { IsValid session.now.descriptor }
    requires within { IsWithinVolume session.now.descriptor ask.now }
    ensures { result ≡ list_any (is_usable (core_of session.now)) (copies_for (core_of session.now) ask.now) }
{
    any_is_usable(session, copies_for(session, ask))
}

fn any_is_usable(session: &Session, pps: &[Pp]) -> bool
    ensures { result ≡ list_any (is_usable (core_of session.now)) pps.now }
{
    for pp in pps {
        if is_usable(session, *pp) {
            return true;
        }
    }
    false
}

/// Whether the notes of the disks of all its targets name its track group, where its volume keeps notes.
pub fn has_names(session: &Session, request: &Request) -> bool
    requires { at_of request.now.ask < 2 ^ 40 }
    ensures { result ≡ has_names (core_of session.now) (mode_of (core_of session.now) request.now.ask) request.now }
{
    match mode_of(session, &request.ask) {
        Mode::Active => are_named(
            session,
            request.ask.lv(),
            group_of(&request.ask),
            &request.targets,
        ),
        Mode::Passive | Mode::Off => true,
    }
}

fn are_named(session: &Session, lv: u16, group: u32, targets: &[Target]) -> bool
    ensures { result ≡ list_all (λ (t : Target). is_named session.now.cache t.pp.disk lv group) targets.now }
{
    for target in targets {
        if !session.cache.is_named(target.pp.disk, lv, group) {
            return false;
        }
    }
    true
}

fn has_dirty_mark(session: &Session, request: &Request) -> bool
    ensures { result ≡ has_dirty_mark (core_of session.now) (mode_of (core_of session.now) request.now.ask) request.now }
{
    match mode_of(session, &request.ask) {
        Mode::Passive => is_settled_dirty(session, request.ask.lv()),
        Mode::Active | Mode::Off => true,
    }
}

fn is_settled_dirty(session: &Session, lv: u16) -> bool
    ensures { result ≡ (calls_dirty session.now.updater.committed lv && calls_dirty (unwrap_or session.now.updater.in_flight session.now.updater.committed) lv) }
{
    match session.updater.in_flight() {
        None => session.updater.committed().is_dirty(lv),
        Some(flying) => session.updater.committed().is_dirty(lv) && flying.is_dirty(lv),
    }
}

/// Whether it is a write whose targets are no longer the copies to which it goes.
pub fn is_changed(session: &Session, request: &Request) -> bool
    requires valid { IsValid session.now.descriptor }
    requires within { IsWithinVolume session.now.descriptor request.now.ask }
    ensures { result ≡ is_changed (core_of session.now) request.now }
{
    request.ask.is_write()
        && !are_targets(
            session,
            group_in(session, &request.ask),
            copies_for(session, &request.ask),
            destination_aim(session, &request.ask),
            &request.targets,
        )
}

/// Whether it is a write that hasn't started its data.
pub fn is_unbegun(request: &Request) -> bool
    ensures { result ≡ (is_write request.now.ask && not (is_begun request.now.targets.items)) }
{
    request.ask.is_write() && !request.has_started()
}

// Whether another is in its way, or something is pending.
fn must_wait(session: &Session, request: &Request, unfailing: bool) -> bool
    requires valid { IsValid session.now.descriptor }
    requires within { IsWithinVolume session.now.descriptor request.now.ask }
    requires unfailing { NoneFails (core_of session.now) unfailing }
    requires id { request.now.id < 2 ^ 32 }
    requires queued { IsQueued (core_of session.now) request.now }
    ensures { result ≡ (is_held_back (core_of session.now) request.now || is_pending (core_of session.now) request.now) }
{
    is_held_back(session, request) || is_pending(session, request, unfailing)
}

// ---- the facts that are read in each phase; the others are told as false

// Of one that isn't admitted; what is pending counts as in its way.
fn held_facts(session: &Session, request: &Request, unfailing: bool) -> Facts
    requires valid { IsValid session.now.descriptor }
    requires within { IsWithinVolume session.now.descriptor request.now.ask }
    requires unfailing { NoneFails (core_of session.now) unfailing }
    requires id { request.now.id < 2 ^ 32 }
    requires queued { IsQueued (core_of session.now) request.now }
    ensures { result ≡ record no_facts { blocked = is_held_back (core_of session.now) request.now || is_pending (core_of session.now) request.now; usable = list_any (is_usable (core_of session.now)) (copies_for (core_of session.now) request.now.ask) } }
{
    Facts {
        blocked: must_wait(session, request, unfailing),
        usable: has_usable(session, &request.ask),
        ..no_facts()
    }
}

// Of a write that has its targets and hasn't started its data.
fn chosen_facts(session: &Session, request: &Request, unfailing: bool) -> Facts
    requires valid { IsValid session.now.descriptor }
    requires within { IsWithinVolume session.now.descriptor request.now.ask }
    requires unfailing { NoneFails (core_of session.now) unfailing }
    ensures { result ≡ record (facts_of (core_of session.now) request.now) { blocked = false; marked = false; kept = false } }
{
    Facts {
        pending: is_pending(session, request, unfailing),
        pinned: request.pinned,
        named: has_names(session, request),
        dirty: has_dirty_mark(session, request),
        usable: has_usable(session, &request.ask),
        changed: is_changed(session, request),
        ..no_facts()
    }
}

// Of a write that waits for its entry: what is pending is read only where it matters.
fn entry_facts(session: &Session, request: &Request, unfailing: bool) -> Facts
    requires valid { IsValid session.now.descriptor }
    requires within { IsWithinVolume session.now.descriptor request.now.ask }
    requires unfailing { NoneFails (core_of session.now) unfailing }
    ensures { next_in phase.WantEntry result request.now ≡ next_in phase.WantEntry (facts_of (core_of session.now) request.now) request.now }
{
    if has_usable(session, &request.ask) && !is_changed(session, request) {
        Facts {
            pinned: request.pinned,
            usable: true,
            ..no_facts()
        }
    } else {
        chosen_facts(session, request, unfailing)
    }
}

// Of a write whose transfers have all ended.
fn ended_facts(session: &Session, request: &Request) -> Facts
    ensures { result ≡ record no_facts { marked = is_marked (core_of session.now) request.now; kept = is_kept (core_of session.now) request.now } }
{
    Facts {
        marked: is_marked(session, request),
        kept: is_kept(session, request),
        ..no_facts()
    }
}

// Where none is read.
fn no_facts() -> Facts
    ensures { result ≡ no_facts }
{
    Facts {
        blocked: false,
        pending: false,
        pinned: false,
        named: false,
        dirty: false,
        marked: false,
        usable: false,
        changed: false,
        kept: false,
    }
}

// Of one that has its targets, and whose data may go to them.
fn data_facts(session: &Session, request: &Request, unfailing: bool) -> Facts
    requires valid { IsValid session.now.descriptor }
    requires within { IsWithinVolume session.now.descriptor request.now.ask }
    requires unfailing { NoneFails (core_of session.now) unfailing }
    ensures { next_in phase.Data result request.now ≡ next_in phase.Data (facts_of (core_of session.now) request.now) request.now }
{
    if is_unbegun(request) {
        chosen_facts(session, request, unfailing)
    } else {
        no_facts()
    }
}

// The facts that a request reads in its phase.
fn read_facts(session: &Session, request: &Request, unfailing: bool) -> Facts
    requires valid { IsValid session.now.descriptor }
    requires within { IsWithinVolume session.now.descriptor request.now.ask }
    requires unfailing { NoneFails (core_of session.now) unfailing }
    requires id { request.now.id < 2 ^ 32 }
    requires queued { IsQueued (core_of session.now) request.now }
    ensures { next_of request.now result ≡ next_of request.now (facts_of (core_of session.now) request.now) }
{
    match request.phase {
        Phase::Held => held_facts(session, request, unfailing),
        Phase::WantEntry => entry_facts(session, request, unfailing),
        Phase::WantRecord => chosen_facts(session, request, unfailing),
        Phase::Data => data_facts(session, request, unfailing),
        Phase::WantStatus => ended_facts(session, request),
        Phase::Landed => no_facts(),
    }
}

/// What a request that hasn't landed does next.
pub fn next_of(session: &Session, open: &Open, unfailing: bool) -> Next
    requires valid { IsValid session.now.descriptor }
    requires within { IsWithinVolume session.now.descriptor open.now.request.ask }
    requires unfailing { NoneFails (core_of session.now) unfailing }
    requires id { open.now.request.id < 2 ^ 32 }
    requires targets { length open.now.request.targets.items ≤ 4 }
    requires queued { IsQueued (core_of session.now) open.now.request }
    ensures { result ≡ next_for (core_of session.now) open.now }
{
    open.request
        .next(read_facts(session, &open.request, unfailing))
}
