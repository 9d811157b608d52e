//! What the end of the copy makes of a session.
ghost use Rattle.std.specs.Prelude.{◌≡◌, None, Some};
ghost use Rattle.lvm_hold.specs.Waiting.{without};
ghost use Rattle.lvm_session.specs.declared.bringing.OpenCopy.{OpenCopy};
ghost use Rattle.lvm_session.specs.Bringing.{marked_by_end, with_end};
ghost use Rattle.lvm_session.specs.Fields.{core_of};
ghost use Rattle.lvm_session.specs.Rooms.{SameRooms};
ghost use Rattle.lvm_session.specs.Marks.{WantsStale};
ghost use Rattle.lvm_calls.specs.Ending.{GivesUp, LeavesStep, MayEndCopy, left_by};

use crate::marking::mark_end;
use lvm_hold::Queue;
use lvm_num::Pbuf;
use lvm_session::{CopyEnd, OpenCopy, Session, Step, give_back};

// What a copy that ends gives up: what it has in hand, and its place in the queue where no transfer of it is out.
#[derive(Drop)]
struct GivenUp {
    hand: Option<Pbuf>,
    place: Option<u64>,
}

fn give_up(step: &mut Step, place: u64) -> GivenUp
    ensures { LeavesStep step.old place step.new result.hand result.place }
{
    match std::mem::replace(step, Step::Idle) {
        Step::Idle => GivenUp {
            hand: None,
            place: Some(place),
        },
        Step::Read { buf } => GivenUp {
            hand: Some(buf),
            place: Some(place),
        },
        Step::Reading { source } => {
            *step = Step::Reading { source };
            GivenUp {
                hand: None,
                place: None,
            }
        }
        Step::Writing => {
            *step = Step::Writing;
            GivenUp {
                hand: None,
                place: None,
            }
        }
    }
}

// It has ended so.
fn quit(copy: &mut Option<OpenCopy>, how: CopyEnd) -> GivenUp
    ensures some { (c : OpenCopy) → copy.old ≡ Some c → GivesUp c how copy.new result.hand result.place }
    ensures none { copy.old ≡ None → (copy.new ≡ None) × (result.hand ≡ None) × (result.place ≡ None) }
{
    match copy {
        None => GivenUp {
            hand: None,
            place: None,
        },
        Some(open) => {
            open.end = Some(how);
            give_up(&mut open.step, open.place)
        }
    }
}

/// The one at a place of the queue leaves it, if one is there.
pub fn leave_if_inside(queue: &mut Queue, place: u64)
    ensures { queue.new ≡ record queue.old { rows = without place queue.old.rows } }
{
    if queue.has(place) {
        queue.leave(place);
    }
}

fn leave(queue: &mut Queue, place: Option<u64>)
    ensures { queue.new ≡ left_by queue.old place }
{
    match place {
        None => {}
        Some(place) => leave_if_inside(queue, place),
    }
}

/// The copy that is open ends so, if one is, and gives up what it has in hand. Its partition becomes wanted stale
/// again, where its clearing was wanted and it doesn't end as fresh.
pub fn end_copy(session: &mut Session, how: CopyEnd)
    requires { MayEndCopy (core_of session.old) }
    ensures core { core_of session.new ≡ record (with_end (core_of session.old) (Some how)) { status = session.new.updater } }
    ensures marks { WantsStale (marked_by_end (core_of session.old) (Some how)) session.old.updater session.new.updater }
    ensures rooms { SameRooms session.old session.new }
{
    mark_end(session, how);
    let given = quit(&mut session.copy, how);
    give_back(&mut session.pool, given.hand);
    leave(&mut session.queue, given.place);
}

/// It ends so, if it does.
pub fn end_copy_if(session: &mut Session, end: Option<CopyEnd>)
    requires { MayEndCopy (core_of session.old) }
    ensures core { core_of session.new ≡ record (with_end (core_of session.old) end) { status = session.new.updater } }
    ensures marks { WantsStale (marked_by_end (core_of session.old) end) session.old.updater session.new.updater }
    ensures rooms { SameRooms session.old session.new }
{
    match end {
        None => {}
        Some(how) => end_copy(session, how),
    }
}
