//! A transfer isn't out any more.
ghost use Rattle.std.specs.Prelude.{◌≡◌, ◌<◌, length};
ghost use Rattle.lvm_pbuf.specs.Out.{IsOut};
ghost use Rattle.lvm_session.specs.Fields.{core_of};
ghost use Rattle.lvm_session.specs.Rooms.{SameRooms};
ghost use Rattle.lvm_session.specs.Ends.{with_return, without_flight};

use lvm_num::Pbuf;
use lvm_session::Session;

/// The transfer at a place of the list isn't out any more, and its buffer stays with its owner.
pub fn end_flight(session: &mut Session, at: usize)
    requires { at < length session.old.flying.items }
    ensures core { core_of session.new ≡ without_flight (core_of session.old) at }
    ensures rooms { SameRooms session.old session.new }
{
    session.flying.remove(at);
}

/// The transfer at a place of the list isn't out any more, and its buffer is in the pool again.
pub fn return_flight(session: &mut Session, at: usize, buf: Pbuf)
    requires within { at < length session.old.flying.items }
    requires out { IsOut session.old.pool buf.number }
    ensures core { core_of session.new ≡ with_return (core_of session.old) at buf }
    ensures rooms { SameRooms session.old session.new }
{
    end_flight(session, at);
    session.pool.give(buf);
}
