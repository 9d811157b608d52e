//! The copy that is open, to a client.
ghost use Rattle.std.specs.Prelude.{◌≡◌, ◌&&◌, ℕ, is_none, not};
ghost use Rattle.std.specs.List.{list_any};
ghost use Rattle.lvm_num.specs.declared.place.Pp.{Pp};
ghost use Rattle.lvm_num.specs.Descriptor.{IsLaidOut, IsValid, is_pp};
ghost use Rattle.lvm_path.specs.declared.target.Target.{Target};
ghost use Rattle.lvm_session.specs.declared.open.Open.{Open};
ghost use Rattle.lvm_session.specs.Fields.{core_of};
ghost use Rattle.lvm_session.specs.Rooms.{SameRooms};
ghost use Rattle.lvm_session.specs.Bringing.{is_out};
ghost use Rattle.lvm_session.specs.Judging.{is_usable};
ghost use Rattle.lvm_session.specs.declared.answers.CopyState.TheVariants as state;
ghost use Rattle.lvm_session.specs.Calls.{closed, copy_at, copy_fault, copy_state, is_aimed_at, is_still_aimed, refusal_at, refusal_in, refusal_on, state_of_copy};

use crate::ask::has_numbers;
use lvm_due::{is_missing, is_move_done, is_pp, is_settled, is_usable};
use lvm_num::{LvRow, Pp, copies_of, volume_of};
use lvm_path::Target;
use lvm_session::{CopyEnd, CopyFault, CopyState, OpenCopy, Power, Session, Step};

fn is_out(step: &Step) -> bool
    ensures { result ≡ is_out step.now }
{
    matches!(step, Step::Reading { .. } | Step::Writing)
}

fn aims_at(targets: &[Target], pp: Pp) -> bool
    ensures { result ≡ list_any (λ (t : Target). is_pp pp t.pp) targets.now }
{
    targets.iter().any(|target| is_pp(pp, target.pp))
}

// Whether a request that hasn't landed has a target on the partition.
fn any_aims_at(session: &Session, pp: Pp) -> bool
    ensures { result ≡ list_any (λ (o : Open). is_none o.landed && list_any (λ (t : Target). is_pp pp t.pp) o.request.targets.items) session.now.requests.items }
{
    session.requests.iter().any(|open| open.landed.is_none() && aims_at(&open.request.targets, pp))
}

// Whether the partition is among the targets of such a one.
fn is_aimed_at(session: &Session, pp: Pp) -> bool
    ensures { result ≡ is_aimed_at (core_of session.now) pp }
{
    any_aims_at(session, pp)
}

// Whether it is a move that has ended, to whose destination a request still goes.
fn is_still_aimed(session: &Session, copy: &OpenCopy) -> bool
    ensures { result ≡ is_still_aimed (core_of session.now) copy.now }
{
    copy.moves && copy.end.is_some() && is_aimed_at(session, copy.pp)
}

fn state_of_copy(session: &Session, copy: &OpenCopy) -> CopyState
    ensures { result ≡ state_of_copy (core_of session.now) copy.now }
{
    if is_out(&copy.step) || is_still_aimed(session, copy) {
        return CopyState::Running {
            cursor: copy.cursor,
        };
    }
    if is_move_done(session, copy) {
        return CopyState::Done;
    }
    match copy.end {
        None => CopyState::Running {
            cursor: copy.cursor,
        },
        Some(CopyEnd::Done) => CopyState::Done,
        Some(CopyEnd::SyncFailed) => CopyState::SyncFailed { disk: copy.pp.disk },
        Some(CopyEnd::NoFresh) => CopyState::NoFresh,
        Some(CopyEnd::Ended) => CopyState::Ended,
    }
}

/// How far the copy is that is open.
pub fn copy_state(session: &Session) -> CopyState
    ensures { result ≡ copy_state (core_of session.now) }
{
    match &session.copy {
        None => CopyState::Closed,
        Some(copy) => state_of_copy(session, copy),
    }
}

/// The copy that is open is closed. It isn't one that is running, whose place in the queue and whose buffer
/// would be lost.
pub fn close_copy(session: &mut Session)
    requires ended { (cursor : ℕ) → copy_state (core_of session.old) ≡ state.Running cursor → ⊥ }
    ensures closed { core_of session.new ≡ closed (core_of session.old) }
    ensures rooms { SameRooms session.old session.new }
{
    session.copy = None;
}

/// The partition of a copy, from 1, among these.
pub fn copy_at(copies: &[Pp], number: u8) -> Option<Pp>
    ensures { result ≡ copy_at copies.now number }
{
    if number == 0 {
        None
    } else {
        copies.get(usize::from(number) - 1).copied()
    }
}

// Whether another copy is usable.
fn any_other_is_usable(session: &Session, copies: &[Pp], pp: Pp) -> bool
    ensures { result ≡ list_any (λ (q : Pp). not (is_pp q pp) && is_usable (core_of session.now) q) copies.now }
{
    copies
        .iter()
        .any(|other| !is_pp(*other, pp) && is_usable(session, *other))
}

fn refusal_at(session: &Session, copies: &[Pp], pp: Pp) -> Option<CopyFault>
    ensures { result ≡ refusal_at (core_of session.now) copies.now pp }
{
    if !is_settled(session, pp) {
        Some(CopyFault::AlreadyFresh)
    } else if is_missing(session, pp.disk) {
        Some(CopyFault::Missing { disk: pp.disk })
    } else if !any_other_is_usable(session, copies, pp) {
        Some(CopyFault::NoFresh)
    } else if has_numbers(session) {
        None
    } else {
        Some(CopyFault::HistoryFull)
    }
}

fn refusal_in(session: &Session, row: &LvRow, lp: u32, number: u8) -> Option<CopyFault>
    requires { IsLaidOut row.now }
    ensures { result ≡ refusal_in (core_of session.now) row.now lp number }
{
    if lp >= row.lps {
        return Some(CopyFault::OutOfRange);
    }
    let copies = copies_of(row, lp);
    match copy_at(copies, number) {
        None => Some(CopyFault::OutOfRange),
        Some(pp) => refusal_at(session, copies, pp),
    }
}

fn refusal_on(session: &Session, lv: u16, lp: u32, number: u8) -> Option<CopyFault>
    requires { IsValid session.now.descriptor }
    ensures { result ≡ refusal_on (core_of session.now) lv lp number }
{
    if session.copy.is_some() {
        return Some(CopyFault::Busy);
    }
    match volume_of(&session.descriptor, lv) {
        None => Some(CopyFault::NoVolume),
        Some(row) => refusal_in(session, row, lp, number),
    }
}

/// Why a copy, from 1, of a logical partition, from 0, of a volume isn't brought up, in the order of
/// `CopyFault`; None where it may be.
pub fn copy_fault(session: &Session, lv: u16, lp: u32, number: u8) -> Option<CopyFault>
    requires { IsValid session.now.descriptor }
    ensures { result ≡ copy_fault (core_of session.now) lv lp number }
{
    match session.power {
        Power::Dark => Some(CopyFault::Dark),
        Power::Off => Some(CopyFault::Off),
        Power::On | Power::Stuck => refusal_on(session, lv, lp, number),
    }
}
