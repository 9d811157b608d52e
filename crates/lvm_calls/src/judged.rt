//! How the state as a whole makes the copy end that is open.
ghost use Rattle.std.specs.Prelude.{◌≡◌, ◌<◌, ◌&&◌, All, IfSome, not};
ghost use Rattle.lvm_num.specs.declared.place.Pp.{Pp};
ghost use Rattle.std.specs.List.{list_any};
ghost use Rattle.lvm_num.specs.Descriptor.{IsValid};
ghost use Rattle.lvm_session.specs.Bringing.{copy_ends, end_by_sources, end_of, ends_if, is_cleared, is_idle};
ghost use Rattle.lvm_session.specs.Fields.{core_of};
ghost use Rattle.lvm_session.specs.Judging.{copies_in};
ghost use Rattle.lvm_calls.specs.Reviewing.{IsLocated, is_other, is_untried};

use crate::below::{is_missing, is_pp, is_running, is_usable, is_whole, stays_fresh};
use lvm_num::{Pp, copies_of, volume_of};
use lvm_session::{CopyEnd, OpenCopy, Session, Step};

fn end_if(is: bool, how: CopyEnd) -> Option<CopyEnd>
    ensures { result ≡ ends_if is how }
{
    if is { Some(how) } else { None }
}

// Whether its clearing is committed, and nothing wants it stale again; a move isn't cleared, but committed.
fn is_cleared(session: &Session, copy: &OpenCopy) -> bool
    ensures { result ≡ is_cleared (core_of session.now) copy.now }
{
    !copy.moves && stays_fresh(session, copy.pp)
}

// The copies of its logical partition.
fn copies_beside<'a>(session: &'a Session, copy: &OpenCopy) -> &'a [Pp]
    requires valid { IsValid session.now.descriptor }
    requires located { IsLocated session.now.descriptor copy.now }
    ensures { result.now ≡ copies_in session.now.descriptor copy.now.lv copy.now.lp }
{
    match volume_of(&session.descriptor, copy.lv) {
        None => &[],
        Some(row) => copies_of(row, copy.lp),
    }
}

// Whether it is another copy, and usable.
fn is_other(session: &Session, copy: &OpenCopy, pp: Pp) -> bool
    ensures { result ≡ is_other (core_of session.now) copy.now pp }
{
    !is_pp(pp, copy.pp) && is_usable(session, pp)
}

fn any_is_other(session: &Session, copy: &OpenCopy, copies: &[Pp]) -> bool
    ensures { result ≡ list_any (is_other (core_of session.now) copy.now) copies.now }
{
    copies.iter().any(|pp| is_other(session, copy, *pp))
}

// Whether it is so and wasn't read in vain for the track group.
fn is_untried(session: &Session, copy: &OpenCopy, pp: Pp) -> bool
    requires { pp.disk < 128 }
    ensures { result ≡ is_untried (core_of session.now) copy.now pp }
{
    is_other(session, copy, pp) && !copy.tried.has(pp.disk)
}

fn any_is_untried(session: &Session, copy: &OpenCopy, copies: &[Pp]) -> bool
    requires { All (λ (p : Pp). p.disk < 128) copies.now }
    ensures { result ≡ list_any (is_untried (core_of session.now) copy.now) copies.now }
{
    for pp in copies {
        if is_untried(session, copy, *pp) {
            return true;
        }
    }
    false
}

// Whether nothing is read for the track group, and nothing is left to be read.
fn is_exhausted(session: &Session, copy: &OpenCopy, copies: &[Pp]) -> bool
    requires { All (λ (p : Pp). p.disk < 128) copies.now }
    ensures { result ≡ (is_idle copy.now.step && not (list_any (is_untried (core_of session.now) copy.now) copies.now)) }
{
    matches!(copy.step, Step::Idle) && !any_is_untried(session, copy, copies)
}

// How it ends by what it may be read from.
fn end_by_sources(session: &Session, copy: &OpenCopy) -> Option<CopyEnd>
    requires valid { IsValid session.now.descriptor }
    requires located { IsLocated session.now.descriptor copy.now }
    ensures { result ≡ end_by_sources (core_of session.now) copy.now }
{
    let copies = copies_beside(session, copy);
    if any_is_other(session, copy, copies) {
        end_if(is_exhausted(session, copy, copies), CopyEnd::SyncFailed)
    } else {
        Some(CopyEnd::NoFresh)
    }
}

fn end_of(session: &Session, copy: &OpenCopy) -> Option<CopyEnd>
    requires valid { IsValid session.now.descriptor }
    requires located { IsLocated session.now.descriptor copy.now }
    ensures { result ≡ end_of (core_of session.now) copy.now }
{
    if !is_running(copy) {
        return None;
    }
    if is_missing(session, copy.pp.disk) {
        return Some(CopyEnd::SyncFailed);
    }
    if is_whole(session, copy) {
        return end_if(is_cleared(session, copy), CopyEnd::Done);
    }
    end_by_sources(session, copy)
}

/// How the copy that is open ends, if one is and it does: its disk is missing, nothing is left to read for its
/// track group, or all is copied and it is cleared.
pub fn copy_ends(session: &Session) -> Option<CopyEnd>
    requires valid { IsValid session.now.descriptor }
    requires located { IfSome session.now.copy (IsLocated session.now.descriptor) }
    ensures { result ≡ copy_ends (core_of session.now) }
{
    match &session.copy {
        None => None,
        Some(copy) => end_of(session, copy),
    }
}
