//! What is due after a call of a client.
ghost use Rattle.std.specs.Prelude.{option_copied};
ghost use Rattle.lvm_session.specs.Fields.{core_of};
ghost use Rattle.lvm_session.specs.Rooms.{HasRooms, SameRooms};
ghost use Rattle.lvm_session.specs.Calls.{SubmitGives, TakeGives};
ghost use Rattle.lvm_session.specs.Asking.{IsAsking, IsAwake};
ghost use Rattle.lvm_session.specs.Sound.{IsTold};
ghost use Rattle.lvm_session_turn.specs.passed.Due.{IsDue};

use lvm_keeps_events::below::{submit_request, take as take_answer};
use lvm_path::Ask;
use lvm_session::{AskFault, Session, Taken};
use lvm_session_turn::below::Due;

// All places of the table.
pub fn all_due(session: &Session) -> Due
    ensures { IsDue (core_of session.now) result }
{
    Due::all(session.requests.len())
}

// A request is submitted.
pub fn submit(
    session: &mut Session,
    due: &mut Due,
    client: u32,
    ask: Ask,
    bytes: Option<&[u8]>,
) -> Result<u64, AskFault>
    requires awake { IsAwake (core_of session.old) }
    requires told { IsTold (core_of session.old) }
    requires rooms { HasRooms session.old }
    requires asks { IsAsking ask (option_copied bytes) }
    requires due { IsDue (core_of session.old) due.old }
    ensures gives { SubmitGives (core_of session.old) (core_of session.new) client ask (option_copied bytes.entry) result }
    ensures rooms { SameRooms session.old session.new }
    ensures due { IsDue (core_of session.new) due.new }
{
    match submit_request(session, client, ask, bytes) {
        Ok(id) => {
            due.submitted(session);
            Ok(id)
        }
        Err(fault) => Err(fault),
    }
}

// An answer is taken.
pub fn take(session: &mut Session, due: &mut Due, client: u32, id: u64) -> Taken
    requires told { IsTold (core_of session.old) }
    requires due { IsDue (core_of session.old) due.old }
    ensures gives { TakeGives (core_of session.old) (core_of session.new) client id result }
    ensures rooms { SameRooms session.old session.new }
    ensures due { IsDue (core_of session.new) due.new }
{
    match take_answer(session, client, id) {
        Taken::NotYet => Taken::NotYet,
        Taken::Unknown => Taken::Unknown,
        answer => {
            due.taken(session);
            answer
        }
    }
}
