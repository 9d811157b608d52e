//! Which targets of a write are to be stale by the end of its transfers.
ghost use Rattle.std.specs.Prelude.{◌≡◌, ◌<◌, length, slice_get, Some, All};
ghost use Rattle.lvm_status.specs.Calls.{IsMarkable};
ghost use Rattle.lvm_status.specs.Update.{seen};
ghost use Rattle.lvm_status.specs.Runs.{IsSoundStatus};
ghost use Rattle.lvm_path.specs.declared.target.Target.{Target};
ghost use Rattle.lvm_session.specs.declared.open.Open.{Open};
ghost use Rattle.lvm_session.specs.Fields.{core_of};
ghost use Rattle.lvm_session.specs.Judging.{pps_of};
ghost use Rattle.lvm_session.specs.Rooms.{SameRooms};
ghost use Rattle.lvm_session.specs.Marks.{WantsStale, is_among, due_of};
ghost use Rattle.lvm_calls.specs.Due.{IsDue, IsFirstSure, IsWithinDue, MayMark, due_among};

use crate::wanted::{mark_others, mark_targets};
use lvm_due::{is_kept, is_sure_at};
use lvm_path::{Target, are_over};
use lvm_session::Session;
use lvm_status::Updater;

/// Which targets of a write are to be stale by the end of a transfer.
#[derive(Clone, Copy)]
pub enum Due {
    /// None: it is a read, or some transfer hasn't ended.
    Nothing,
    /// Those that failed: a sure one has succeeded.
    Failed,
    /// All but the one at this place, from 0; all of them where none is sure.
    Others(Option<usize>),
}

// These targets become wanted stale.
fn mark(updater: &mut Updater, targets: &[Target], due: Due)
    requires sound { IsSoundStatus (seen updater.old) }
    requires markable { All (λ (t : Target). IsMarkable updater.old.wanted t.pp) targets.now }
    requires within { IsWithinDue due targets.now }
    ensures { WantsStale (is_among (pps_of (due_among due targets.now))) updater.old updater.new }
{
    match due {
        Due::Nothing => {}
        Due::Failed => mark_targets(updater, targets, false),
        Due::Others(sure) => mark_others(updater, targets, sure),
    }
}

// The first target that is sure.
fn first_sure(session: &Session, targets: &[Target]) -> Option<usize>
    ensures { IsFirstSure (core_of session.now) targets.now result }
{
    for k in 0..targets.len() {
        if is_sure_at(session, &targets[k]) {
            return Some(k);
        }
    }
    None
}

/// Which targets of the request at a place of the table, from 0, are to be stale.
pub fn due_at(session: &Session, place: usize) -> Due
    requires { place < length session.now.requests.items }
    ensures { (o : Open) → slice_get session.now.requests.items place ≡ Some o → IsDue (core_of session.now) o.request result }
{
    let request = &session.requests[place].request;
    if !request.ask.is_write() || !are_over(&request.targets) {
        return Due::Nothing;
    }
    if is_kept(session, request) {
        return Due::Failed;
    }
    Due::Others(first_sure(session, &request.targets))
}

/// They become wanted stale, and nothing else changes.
pub fn mark_due(session: &mut Session, place: usize)
    requires { MayMark (core_of session.old) place }
    ensures core { core_of session.new ≡ record (core_of session.old) { status = session.new.updater } }
    ensures marks { (o : Open) → slice_get session.old.requests.items place ≡ Some o → WantsStale (is_among (due_of (core_of session.old) o.request)) session.old.updater session.new.updater }
    ensures rooms { SameRooms session.old session.new }
{
    let due = due_at(session, place);
    mark(
        &mut session.updater,
        &session.requests[place].request.targets,
        due,
    );
}
