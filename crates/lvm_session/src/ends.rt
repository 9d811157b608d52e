//! A session ends.
ghost use Rattle.std.specs.Prelude.{◌≡◌};
ghost use Rattle.std.specs.Option.{option_map};
ghost use Rattle.lvm_session.specs.Fields.{core_of};
ghost use Rattle.lvm_session.specs.Rooms.{SameRooms};
ghost use Rattle.lvm_session.specs.declared.bringing.Step.TheVariants as stage;
ghost use Rattle.lvm_session.specs.Bringing.{hand_of};
ghost use Rattle.lvm_session.specs.Dark.{all_dark, all_ended, all_off, ended_copy, hand_of_copy};
ghost use Rattle.lvm_session.specs.Hands.{MayEnd};

use crate::below::Pbuf;
use crate::bringing::{CopyEnd, OpenCopy, Step};
use crate::landings::{end_all, give_back, land_all};
use crate::open::Power;
use crate::session::Session;
use lvm_vol::Outcome;

// What the copy has in hand is handed out.
fn take_hand(step: &mut Step) -> Option<Pbuf>
    ensures step { step.new ≡ stage.Idle }
    ensures hand { result ≡ hand_of step.old }
{
    match std::mem::replace(step, Step::Idle) {
        Step::Read { buf } => Some(buf),
        Step::Idle | Step::Reading { .. } | Step::Writing => None,
    }
}

// The copy has ended, unless it had; what it has in hand is handed out.
fn end_copy(copy: &mut Option<OpenCopy>) -> Option<Pbuf>
    ensures copy { copy.new ≡ option_map ended_copy copy.old }
    ensures hand { result ≡ hand_of_copy copy.old }
{
    match copy {
        None => None,
        Some(open) => {
            if open.end.is_none() {
                open.end = Some(CopyEnd::Ended);
            }
            take_hand(&mut open.step)
        }
    }
}

// All that was open has ended so.
fn end_open_ones(session: &mut Session, how: Outcome)
    requires { MayEnd (core_of session.old) }
    ensures core { core_of session.new ≡ all_ended how (core_of session.old) }
    ensures rooms { SameRooms session.old session.new }
{
    land_all(&mut session.history, &session.requests, how);
    let hand = end_copy(&mut session.copy);
    give_back(&mut session.pool, hand);
    end_all(&mut session.requests, &mut session.pool, how);
}

/// The power is off: a cut is entered, and all that waited lands as Dark. No transfer is out any more.
pub fn darken(session: &mut Session)
    requires { MayEnd (core_of session.old) }
    ensures core { core_of session.new ≡ all_dark (core_of session.old) }
    ensures rooms { SameRooms session.old session.new }
{
    session.history.cut();
    end_open_ones(session, Outcome::Dark);
    session.flying.clear();
    session.power = Power::Dark;
}

/// The votes are lost and no transfer is out: all that waited lands as Off.
pub fn go_off(session: &mut Session)
    requires { MayEnd (core_of session.old) }
    ensures core { core_of session.new ≡ all_off (core_of session.old) }
    ensures rooms { SameRooms session.old session.new }
{
    end_open_ones(session, Outcome::Off);
    session.power = Power::Off;
}
