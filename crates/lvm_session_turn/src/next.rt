//! The copy goes on with its next track group, or is to be cleared.
ghost use Rattle.std.specs.Prelude.{◌≡◌, ◌+◌, ◌<◌, ◌^◌};
ghost use Rattle.lvm_status.specs.Calls.{IsMarkable};
ghost use Rattle.lvm_session.specs.Bringing.{is_whole};
ghost use Rattle.lvm_session.specs.Fields.{core_of};
ghost use Rattle.lvm_session.specs.Rooms.{SameRooms};
ghost use Rattle.lvm_session.specs.Ends.{CopyStepsOn, with_copy};
ghost use Rattle.lvm_session.specs.Marks.{WantsFresh};
ghost use Rattle.lvm_session_turn.specs.Carried.{MayGoOn, MayPass, MovesTo, CopyGoesOn};

use crate::below::is_whole;
use lvm_calls::{enter_step, step_place};
use lvm_num::DiskSet;
use lvm_session::{OpenCopy, Session, Step};
use lvm_status::Change;

// The copy at its next track group, with nothing tried.
fn moved_on(copy: OpenCopy, place: u64) -> OpenCopy
    requires { copy.cursor + 1 < 2 ^ 32 }
    ensures { MovesTo copy place result }
{
    let mut next = copy;
    next.cursor += 1;
    next.step = Step::Idle;
    next.tried = DiskSet::empty();
    next.place = place;
    next
}

// It is to be cleared.
fn clear(session: &mut Session, copy: OpenCopy)
    requires { IsMarkable session.old.updater.wanted copy.pp }
    ensures core { core_of session.new ≡ record (with_copy (core_of session.old) copy) { status = session.new.updater } }
    ensures fresh { WantsFresh copy.pp session.old.updater session.new.updater }
    ensures rooms { SameRooms session.old session.new }
{
    session.updater.want(Change::Fresh(copy.pp));
    session.copy = Some(copy);
}

// All is copied, and it is to be cleared; or its next step enters the hold queue.
fn go_on(session: &mut Session, copy: OpenCopy)
    requires { MayGoOn (core_of session.old) copy }
    ensures goes { CopyStepsOn (is_whole (core_of session.old) copy) (core_of session.old) copy (core_of session.new) }
    ensures rooms { SameRooms session.old session.new }
{
    if is_whole(session, &copy) {
        clear(session, copy);
    } else {
        enter_step(session, copy);
    }
}

/// The track group at the cursor is copied: the copy goes on with the next one, or is to be cleared.
pub fn pass(session: &mut Session)
    requires { MayPass (core_of session.old) }
    ensures passes { CopyGoesOn (core_of session.old) (core_of session.new) }
    ensures rooms { SameRooms session.old session.new }
{
    let place = step_place(session);
    match session.copy.take() {
        None => unreachable!(),
        Some(copy) => go_on(session, moved_on(copy, place)),
    }
}
