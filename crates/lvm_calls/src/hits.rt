//! Whether the copy that is open fails with a write.
ghost use Rattle.std.specs.Prelude.{◌≡◌, ◌<◌, length, slice_get, Some};
ghost use Rattle.std.specs.List.{list_any};
ghost use Rattle.lvm_num.specs.Descriptor.{is_pp};
ghost use Rattle.lvm_path.specs.declared.target.Target.{Target};
ghost use Rattle.lvm_session.specs.declared.bringing.CopyEnd.TheVariants as ending;
ghost use Rattle.lvm_session.specs.Bringing.{ends_if};
ghost use Rattle.lvm_session.specs.Judging.{all_but_sure};
ghost use Rattle.lvm_session.specs.declared.open.Open.{Open};
ghost use Rattle.lvm_session.specs.Fields.{core_of};
ghost use Rattle.lvm_session.specs.Marks.{end_by_write};
ghost use Rattle.lvm_calls.specs.Losing.{fails_with, loses};

use crate::below::{is_kept, is_pp, is_running, is_sure_at};
use lvm_num::Pp;
use lvm_path::{Target, are_over};
use lvm_session::{CopyEnd, Open, OpenCopy, Session};

// Whether it is one of the targets but the first sure one.
fn is_one_of(session: &Session, targets: &[Target], pp: Pp) -> bool
    ensures { result ≡ list_any (λ (t : Target). is_pp pp t.pp) (all_but_sure (core_of session.now) targets.now) }
{
    let mut sure = false;
    for target in targets {
        if !sure && is_sure_at(session, target) {
            sure = true;
        } else if is_pp(pp, target.pp) {
            return true;
        }
    }
    false
}

// Whether a write that has lost all its sure targets leaves the copy stale.
fn loses(session: &Session, open: &Open, pp: Pp) -> bool
    ensures { result ≡ loses (core_of session.now) open.now pp }
{
    are_over(&open.request.targets)
        && !is_kept(session, &open.request)
        && !open.older
        && is_one_of(session, &open.request.targets, pp)
}

fn fails_with(session: &Session, open: &Open, ok: bool, pp: Pp, copy: &OpenCopy) -> bool
    ensures { result ≡ fails_with (core_of session.now) open.now ok pp copy.now }
{
    open.request.ask.is_write()
        && is_running(copy)
        && (!ok && is_pp(pp, copy.pp) || loses(session, open, copy.pp))
}

/// How the copy that is open ends by the end of a transfer of the request at a place of the table.
pub fn end_by_write(session: &Session, place: usize, ok: bool, pp: Pp) -> Option<CopyEnd>
    requires { place < length session.now.requests.items }
    ensures { (o : Open) → slice_get session.now.requests.items place ≡ Some o → result ≡ end_by_write (core_of session.now) o ok pp }
{
    match &session.copy {
        None => None,
        Some(copy) => fails_if(fails_with(session, &session.requests[place], ok, pp, copy)),
    }
}

fn fails_if(is: bool) -> Option<CopyEnd>
    ensures { result ≡ ends_if is ending.SyncFailed }
{
    if is { Some(CopyEnd::SyncFailed) } else { None }
}
