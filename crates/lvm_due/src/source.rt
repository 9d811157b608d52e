//! Whether the copy that is open may be read.
ghost use Rattle.std.specs.Prelude.{◌≡◌, ◌<◌, ◌&&◌, true, if◌then◌else◌, not, Some, None};
ghost use Rattle.lvm_num.specs.Descriptor.{IsValid};
ghost use Rattle.lvm_session.specs.declared.event.Event.TheVariants as event;
ghost use Rattle.lvm_session.specs.Fields.{core_of};
ghost use Rattle.lvm_session.specs.Judging.{is_running};
ghost use Rattle.lvm_session.specs.Bringing.{is_whole, next_source};
ghost use Rattle.lvm_session.specs.Enabled.{is_free_step, may_read};
ghost use Rattle.lvm_session.specs.Sound.{IsCopy, IsGoing};
ghost use Rattle.lvm_due.specs.Plain.{is_source, plain_read};

use crate::below::{copies_beside, is_pp, is_running, is_usable, is_whole};
use lvm_num::Pp;
use lvm_session::{Event, OpenCopy, Session, Step};

// Whether nothing in the hold queue is in the way of its step.
fn is_free_step(session: &Session, copy: &OpenCopy) -> bool
    requires going { IsGoing (core_of session.now) }
    requires copy { session.now.copy ≡ Some copy.now }
    requires running { (is_running copy.now && not (is_whole (core_of session.now) copy.now)) ≡ true }
    ensures { result ≡ is_free_step (core_of session.now) copy.now }
{
    session.queue.blocked_by(copy.place).is_none()
}

// Whether it may be read from this copy of its logical partition, which wasn't tried in vain for this track group.
fn is_source(session: &Session, copy: &OpenCopy, pp: Pp) -> bool
    requires { pp.disk < 128 }
    ensures { result ≡ is_source (core_of session.now) copy.now pp }
{
    !is_pp(pp, copy.pp) && is_usable(session, pp) && !copy.tried.has(pp.disk)
}

/// The first copy that the one that is open may be read from, and wasn't in vain for this track group.
pub fn next_source(session: &Session, copy: &OpenCopy) -> Option<Pp>
    requires valid { IsValid session.now.descriptor }
    requires copy { IsCopy (core_of session.now) copy.now }
    ensures { result ≡ next_source (core_of session.now) copy.now }
{
    let copies = copies_beside(session, copy);
    for k in 0..copies.len() {
        if is_source(session, copy, copies[k]) {
            return Some(copies[k]);
        }
    }
    None
}

// Whether its read may be started.
fn may_read(session: &Session, copy: &OpenCopy) -> bool
    requires going { IsGoing (core_of session.now) }
    requires copy { session.now.copy ≡ Some copy.now }
    ensures { result ≡ may_read (core_of session.now) copy.now }
{
    is_running(copy)
        && !is_whole(session, copy)
        && matches!(copy.step, Step::Idle)
        && is_free_step(session, copy)
        && next_source(session, copy).is_some()
}

/// The read of the copy that is open, where it may be started, whether or not a buffer is there for it.
pub fn copy_read(session: &Session) -> Option<Event>
    requires { IsGoing (core_of session.now) }
    ensures { result ≡ plain_read (core_of session.now) }
{
    match &session.copy {
        None => None,
        Some(copy) => read_of(may_read(session, copy)),
    }
}

fn read_of(may: bool) -> Option<Event>
    ensures { result ≡ (if may then Some event.ReadCopy else None) }
{
    if may { Some(Event::ReadCopy) } else { None }
}
