//! What comes of a transfer of the copy, case by case.
ghost use Rattle.std.specs.Prelude.{◌≡◌, Some};
ghost use Rattle.lvm_session.specs.declared.bringing.OpenCopy.{OpenCopy};
ghost use Rattle.lvm_session.specs.declared.flown.Owner.TheVariants as owner;
ghost use Rattle.lvm_session.specs.Fields.{core_of};
ghost use Rattle.lvm_session.specs.Rooms.{SameRooms};
ghost use Rattle.lvm_session.specs.Ends.{FailsCopy, MissesSource, PassesGroup, after_quit, after_read};
ghost use Rattle.lvm_session_turn.specs.Ended.{TransferHasEnded};
ghost use Rattle.lvm_session_turn.specs.declared.step.Carry.TheVariants as carry;
ghost use Rattle.lvm_session_turn.specs.Carried.{IsCarrying};

use crate::back::{end_flight, return_flight};
use crate::below::{end_copy, review};
use crate::next::pass;
use crate::step::{hold, leave_step, miss, settle};
use lvm_num::{Pbuf, Pp};
use lvm_session::{CopyEnd, Session};

/// The copy had ended before, and nothing comes of it.
pub fn quit(session: &mut Session, at: usize, buf: Pbuf)
    requires { TransferHasEnded (core_of session.old) at owner.Copy buf.number }
    ensures core { (c : OpenCopy) → session.old.copy ≡ Some c → core_of session.new ≡ after_quit (core_of session.old) at c buf }
    ensures rooms { SameRooms session.old session.new }
{
    return_flight(session, at, buf);
    leave_step(session);
}

/// The track group is read, and in hand.
pub fn keep(session: &mut Session, at: usize, buf: Pbuf)
    requires { TransferHasEnded (core_of session.old) at owner.Copy buf.number }
    ensures core { (c : OpenCopy) → session.old.copy ≡ Some c → core_of session.new ≡ after_read (core_of session.old) at c buf }
    ensures rooms { SameRooms session.old session.new }
{
    end_flight(session, at);
    hold(&mut session.copy, buf);
}

/// It was read in vain.
pub fn miss_source(session: &mut Session, at: usize, source: Pp, buf: Pbuf)
    requires ended { TransferHasEnded (core_of session.old) at owner.Copy buf.number }
    requires reads { IsCarrying (core_of session.old) (carry.Read source) }
    ensures misses { (c : OpenCopy) → session.old.copy ≡ Some c → MissesSource (core_of session.old) at c source buf (core_of session.new) }
    ensures rooms { SameRooms session.old session.new }
{
    return_flight(session, at, buf);
    miss(&mut session.copy, source.disk);
    review(session);
}

/// It is written, and the next one follows, or the clearing.
pub fn pass_group(session: &mut Session, at: usize, buf: Pbuf)
    requires ended { TransferHasEnded (core_of session.old) at owner.Copy buf.number }
    requires writes { IsCarrying (core_of session.old) carry.Write }
    ensures passes { (c : OpenCopy) → session.old.copy ≡ Some c → PassesGroup (core_of session.old) at c buf (core_of session.new) }
    ensures rooms { SameRooms session.old session.new }
{
    return_flight(session, at, buf);
    leave_step(session);
    pass(session);
    review(session);
}

/// It was written in vain, and the copy fails.
pub fn fail(session: &mut Session, at: usize, buf: Pbuf)
    requires { TransferHasEnded (core_of session.old) at owner.Copy buf.number }
    ensures fails { (c : OpenCopy) → session.old.copy ≡ Some c → FailsCopy (core_of session.old) at c buf (core_of session.new) }
    ensures rooms { SameRooms session.old session.new }
{
    return_flight(session, at, buf);
    settle(&mut session.copy);
    end_copy(session, CopyEnd::SyncFailed);
}
