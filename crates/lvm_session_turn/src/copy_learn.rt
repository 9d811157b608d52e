//! The copy learns how its transfer ended.
ghost use Rattle.lvm_session.specs.declared.flown.Owner.TheVariants as owner;
ghost use Rattle.lvm_session.specs.Fields.{core_of};
ghost use Rattle.lvm_session.specs.Rooms.{SameRooms};
ghost use Rattle.lvm_session.specs.Ends.{CopyLearns};
ghost use Rattle.lvm_session_turn.specs.Ended.{TransferHasEnded};
ghost use Rattle.lvm_session_turn.specs.declared.step.Carry.TheVariants as carry;
ghost use Rattle.lvm_session_turn.specs.Carried.{IsCarrying};

use crate::cases::{fail, keep, miss_source, pass_group, quit};
use crate::step::{Carry, carried};
use lvm_num::{Pbuf, Pp};
use lvm_session::Session;

fn end_read(session: &mut Session, at: usize, source: Pp, ok: bool, buf: Pbuf)
    requires ended { TransferHasEnded (core_of session.old) at owner.Copy buf.number }
    requires reads { IsCarrying (core_of session.old) (carry.Read source) }
    ensures learns { CopyLearns (core_of session.old) at ok buf (core_of session.new) }
    ensures rooms { SameRooms session.old session.new }
{
    if ok {
        keep(session, at, buf);
    } else {
        miss_source(session, at, source, buf);
    }
}

fn end_write(session: &mut Session, at: usize, ok: bool, buf: Pbuf)
    requires ended { TransferHasEnded (core_of session.old) at owner.Copy buf.number }
    requires writes { IsCarrying (core_of session.old) carry.Write }
    ensures learns { CopyLearns (core_of session.old) at ok buf (core_of session.new) }
    ensures rooms { SameRooms session.old session.new }
{
    if ok {
        pass_group(session, at, buf);
    } else {
        fail(session, at, buf);
    }
}

/// The transfer of the copy that is open, at a place of the list of those that are out, has ended well or badly. A
/// track group that is read is in hand, and the next source is tried where the read failed. Behind one that is
/// written the next follows, or the clearing, and the copy fails where the write failed. Nothing comes of it where
/// the copy had ended before.
pub fn end_step(session: &mut Session, at: usize, ok: bool, buf: Pbuf)
    requires { TransferHasEnded (core_of session.old) at owner.Copy buf.number }
    ensures learns { CopyLearns (core_of session.old) at ok buf (core_of session.new) }
    ensures rooms { SameRooms session.old session.new }
{
    match carried(session) {
        Carry::Nothing => quit(session, at, buf),
        Carry::Read { source } => end_read(session, at, source, ok, buf),
        Carry::Write => end_write(session, at, ok, buf),
    }
}
