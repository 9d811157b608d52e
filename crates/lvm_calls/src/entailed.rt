//! The end of a transfer of a request makes itself felt.
ghost use Rattle.std.specs.Prelude.{◌≡◌, slice_get, Some};
ghost use Rattle.lvm_session.specs.declared.open.Open.{Open};
ghost use Rattle.lvm_session.specs.Fields.{core_of};
ghost use Rattle.lvm_session.specs.Rooms.{SameRooms};
ghost use Rattle.lvm_session.specs.Marks.{Entails};
ghost use Rattle.lvm_calls.specs.Due.{MayMark};
ghost use Rattle.lvm_calls.specs.Ending.{MayEndCopy};

use crate::due::mark_due;
use crate::ending::end_copy_if;
use crate::hits::end_by_write;
use lvm_num::Pp;
use lvm_session::Session;

/// A transfer of the request at a place of the table, on this partition, has ended well or badly, of which the
/// request has learned. Staleness is wanted of the targets that are due, and the copy that is open fails with them.
pub fn entail(session: &mut Session, place: usize, ok: bool, pp: Pp)
    requires mark { MayMark (core_of session.old) place }
    requires copy { MayEndCopy (core_of session.old) }
    ensures core { (o : Open) → slice_get session.old.requests.items place ≡ Some o → Entails (core_of session.old) o ok pp (core_of session.new) }
    ensures rooms { SameRooms session.old session.new }
{
    let end = end_by_write(session, place, ok, pp);
    mark_due(session, place);
    end_copy_if(session, end);
}
