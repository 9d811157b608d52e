//! The write of a note, or of the status, has ended.
ghost use Rattle.lvm_session.specs.declared.flown.Owner.TheVariants as owner;
ghost use Rattle.lvm_session.specs.Fields.{core_of};
ghost use Rattle.lvm_session.specs.Rooms.{SameRooms};
ghost use Rattle.lvm_session.specs.Ends.{NoteLearns, StatusLearns};
ghost use Rattle.lvm_session_turn.specs.Ended.{TransferHasEnded};

use crate::learn::{learn_note, learn_status};
use lvm_calls::review;
use lvm_num::Pbuf;
use lvm_session::Session;

/// The write of a note on a disk, at a place of the list of those that are out, has ended well or badly: the disk's
/// notes learn it. Where it ended badly the disk is missing, and what that entails is wanted.
pub fn end_note(session: &mut Session, at: usize, disk: u16, ok: bool, buf: Pbuf)
    requires { TransferHasEnded (core_of session.old) at (owner.Note disk) buf.number }
    ensures learns { NoteLearns (core_of session.old) at disk ok buf (core_of session.new) }
    ensures rooms { SameRooms session.old session.new }
{
    learn_note(session, at, disk, ok, buf);
    if !ok {
        review(session);
    }
}

/// The write of the status in flight to a disk, at a place of the list of those that are out, has ended well or
/// badly: the update learns it, and what a commit or a missing disk entails is wanted.
pub fn end_status(session: &mut Session, at: usize, disk: u16, ok: bool, buf: Pbuf)
    requires { TransferHasEnded (core_of session.old) at (owner.Status disk) buf.number }
    ensures learns { StatusLearns (core_of session.old) at disk ok buf (core_of session.new) }
    ensures rooms { SameRooms session.old session.new }
{
    learn_status(session, at, disk, ok, buf);
    review(session);
}
