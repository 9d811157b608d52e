//! The partition of a copy that ends otherwise than fresh is to be stale again.
ghost use Rattle.std.specs.Prelude.{◌≡◌, ◌&&◌, ◌||◌, Some, not};
ghost use Rattle.lvm_session.specs.Bringing.{is_held_stale, is_whole, marked_by_end};
ghost use Rattle.lvm_session.specs.Fields.{core_of};
ghost use Rattle.lvm_session.specs.Rooms.{SameRooms};
ghost use Rattle.lvm_session.specs.Marks.{WantsStale};
ghost use Rattle.lvm_calls.specs.Ending.{MayEndCopy, Unclears};

use crate::below::{is_held_stale, is_whole};
use crate::wanted::want_stale;
use lvm_num::Pp;
use lvm_session::{CopyEnd, OpenCopy, Session};

// Whether the partition of a copy that doesn't end as fresh is to be stale again: its clearing was wanted. That of
// a move only where it was called stale.
fn was_cleared(session: &Session, copy: &OpenCopy) -> bool
    ensures { result ≡ (is_whole (core_of session.now) copy.now && (not copy.now.moves || is_held_stale (core_of session.now) copy.now.pp)) }
{
    is_whole(session, copy) && (!copy.moves || is_held_stale(session, copy.pp))
}

// The partition of the copy that is open, where its clearing was wanted and it doesn't end as fresh.
fn unclears(session: &Session, how: CopyEnd) -> Option<Pp>
    ensures { Unclears (core_of session.now) how result }
{
    match &session.copy {
        None => None,
        Some(copy) => match how {
            CopyEnd::Done => None,
            CopyEnd::SyncFailed | CopyEnd::NoFresh | CopyEnd::Ended => {
                if was_cleared(session, copy) {
                    Some(copy.pp)
                } else {
                    None
                }
            }
        },
    }
}

/// Its partition becomes wanted stale, where its clearing was wanted and it doesn't end as fresh.
pub fn mark_end(session: &mut Session, how: CopyEnd)
    requires { MayEndCopy (core_of session.old) }
    ensures core { core_of session.new ≡ record (core_of session.old) { status = session.new.updater } }
    ensures marks { WantsStale (marked_by_end (core_of session.old) (Some how)) session.old.updater session.new.updater }
    ensures rooms { SameRooms session.old session.new }
{
    match unclears(session, how) {
        None => {}
        Some(pp) => want_stale(&mut session.updater, pp),
    }
}
