//! The next step enters the hold queue.
ghost use Rattle.std.specs.Prelude.{◌≡◌, ◌<◌, ◌+◌, ◌*◌, ◌^◌, [], length};
ghost use Rattle.lvm_vol.specs.Order.{Ordered};
ghost use Rattle.lvm_hold.specs.Conflicts.{IsInGroup};
ghost use Rattle.lvm_hold.specs.Waiting.{AreBelow};
ghost use Rattle.lvm_session.specs.Bringing.{step_of, step_place};
ghost use Rattle.lvm_session.specs.Fields.{core_of};
ghost use Rattle.lvm_session.specs.Rooms.{SameRooms};
ghost use Rattle.lvm_session.specs.Ends.{with_step};

use crate::numbers::next_id;
use lvm_due::partition_blocks;
use lvm_hold::Held;
use lvm_session::{OpenCopy, Session};

/// The place in the hold queue behind all requests that have begun, and before the next one.
pub fn step_place(session: &Session) -> u64
    requires { Ordered session.now.history.run [] session.now.history.facts }
    ensures { result ≡ step_place (core_of session.now) }
{
    2 * next_id(&session.history) - 1
}

// The first block, in its volume, of a track group of a logical partition of so many blocks.
fn block_at(blocks: u64, lp: u32, cursor: u32) -> u64
    requires { blocks < 2 ^ 28 }
    ensures is { result ≡ blocks * lp + 256 * cursor }
    ensures few { result < 2 ^ 61 }
{
    blocks * u64::from(lp) + 256 * u64::from(cursor)
}

// What a step of the copy takes: the track group at its cursor.
fn step_of(session: &Session, copy: &OpenCopy) -> Held
    ensures is { result ≡ step_of (core_of session.now) copy.now }
    ensures group { IsInGroup result }
{
    let blocks = partition_blocks(session.descriptor.mib);
    Held {
        lv: copy.lv,
        at: block_at(blocks, copy.lp, copy.cursor),
        count: 256,
        write: false,
        copy: true,
    }
}

/// The copy that is open is this one from now on, and its step enters the hold queue, behind all that are inside.
pub fn enter_step(session: &mut Session, copy: OpenCopy)
    requires room { length session.old.queue.rows < session.old.queue.room }
    requires last { AreBelow session.old.queue.rows copy.place }
    ensures core { core_of session.new ≡ with_step (core_of session.old) copy }
    ensures rooms { SameRooms session.old session.new }
{
    let step = step_of(session, &copy);
    session.queue.enter(copy.place, step);
    session.copy = Some(copy);
}
