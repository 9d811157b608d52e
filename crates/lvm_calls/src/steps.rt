//! What follows of a change of what is missing or committed.
ghost use Rattle.std.specs.Prelude.{◌≡◌};
ghost use Rattle.lvm_session.specs.Fields.{core_of};
ghost use Rattle.lvm_session.specs.Rooms.{SameRooms};
ghost use Rattle.lvm_session.specs.Marks.{Reviews, WantsStale, is_entailed};
ghost use Rattle.lvm_calls.specs.Reviewing.{MayReview};

use crate::behind::mark_left;
use crate::ending::end_copy_if;
use crate::judged::copy_ends;
use lvm_session::Session;

// What missing disks leave behind becomes wanted stale.
fn mark_entailed(session: &mut Session)
    requires { MayReview (core_of session.old) }
    ensures core { core_of session.new ≡ record (core_of session.old) { status = session.new.updater } }
    ensures marks { WantsStale (is_entailed (core_of session.old)) session.old.updater session.new.updater }
    ensures rooms { SameRooms session.old session.new }
{
    mark_left(&mut session.updater, session.descriptor.lvs.as_slice());
}

/// Staleness is wanted of what missing disks leave behind, and the copy that is open ends where the state as a
/// whole makes it.
pub fn review(session: &mut Session)
    requires { MayReview (core_of session.old) }
    ensures reviews { Reviews (core_of session.old) (core_of session.new) }
    ensures rooms { SameRooms session.old session.new }
{
    let end = copy_ends(session);
    mark_entailed(session);
    end_copy_if(session, end);
}
