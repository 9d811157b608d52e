//! What the copy's transfer was for, and what the copy does once it has ended.
ghost use Rattle.std.specs.Prelude.{◌≡◌, ◌<◌, true, Some};
ghost use Rattle.lvm_session.specs.declared.bringing.OpenCopy.{OpenCopy};
ghost use Rattle.lvm_session.specs.declared.bringing.Step.TheVariants as stage;
ghost use Rattle.lvm_session.specs.declared.flown.Owner.TheVariants as owner;
ghost use Rattle.lvm_session.specs.Bringing.{is_out};
ghost use Rattle.lvm_session.specs.Fields.{core_of};
ghost use Rattle.lvm_session.specs.Rooms.{SameRooms};
ghost use Rattle.lvm_session.specs.Ends.{with_copy, without_step};
ghost use Rattle.lvm_session.specs.Owners.{flies};
ghost use Rattle.lvm_session_turn.specs.Carried.{Carried, IsCarrying, Tries};

use crate::below::{is_running, leave_if_inside};
use lvm_num::{Pbuf, Pp};
use lvm_session::{OpenCopy, Session, Step};

/// What a transfer of the copy was for.
#[derive(Clone, Copy)]
pub enum Carry {
    /// The copy had ended before.
    Nothing,
    /// The track group was read from this partition.
    Read { source: Pp },
    /// It was written.
    Write,
}

fn carried_by(copy: &OpenCopy) -> Carry
    requires { is_out copy.now.step ≡ true }
    ensures { Carried copy.now result }
{
    if !is_running(copy) {
        return Carry::Nothing;
    }
    match &copy.step {
        Step::Reading { source } => Carry::Read { source: *source },
        Step::Writing => Carry::Write,
        Step::Idle | Step::Read { .. } => unreachable!(),
    }
}

/// What the transfer was for of the copy that is open.
pub fn carried(session: &Session) -> Carry
    requires { flies (core_of session.now) owner.Copy ≡ true }
    ensures { IsCarrying (core_of session.now) result }
{
    match &session.copy {
        None => unreachable!(),
        Some(copy) => carried_by(copy),
    }
}

/// Nothing of the copy is under way.
pub fn settle(copy: &mut Option<OpenCopy>)
    ensures { (c : OpenCopy) → copy.old ≡ Some c → copy.new ≡ Some (record c { step = stage.Idle }) }
{
    match copy {
        None => {}
        Some(open) => open.step = Step::Idle,
    }
}

/// It has a track group in hand.
pub fn hold(copy: &mut Option<OpenCopy>, buf: Pbuf)
    ensures { (c : OpenCopy) → copy.old ≡ Some c → copy.new ≡ Some (record c { step = stage.Read buf }) }
{
    match copy {
        None => {}
        Some(open) => open.step = Step::Read { buf },
    }
}

/// The copy on a disk was read in vain.
pub fn miss(copy: &mut Option<OpenCopy>, disk: u16)
    requires { disk < 128 }
    ensures { (c : OpenCopy) → copy.old ≡ Some c → Tries c disk copy.new }
{
    match copy {
        None => {}
        Some(open) => {
            open.step = Step::Idle;
            open.tried = open.tried.with(disk);
        }
    }
}

/// Nothing of the copy is under way, and its step leaves the hold queue.
pub fn leave_step(session: &mut Session)
    ensures core { (c : OpenCopy) → session.old.copy ≡ Some c → core_of session.new ≡ with_copy (without_step (core_of session.old) c) (record c { step = stage.Idle }) }
    ensures rooms { SameRooms session.old session.new }
{
    match &mut session.copy {
        None => {}
        Some(open) => {
            open.step = Step::Idle;
            leave_if_inside(&mut session.queue, open.place);
        }
    }
}
