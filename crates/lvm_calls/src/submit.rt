//! A request is submitted.
ghost use Rattle.std.specs.Prelude.{option_copied};
ghost use Rattle.lvm_session.specs.Fields.{core_of};
ghost use Rattle.lvm_session.specs.Rooms.{HasRooms, SameRooms};
ghost use Rattle.lvm_session.specs.Calls.{SubmitGives};
ghost use Rattle.lvm_session.specs.Asking.{IsAsking, IsAwake};

use crate::ask::ask_fault;
use crate::begin::begin;
use lvm_path::Ask;
use lvm_session::{AskFault, Session};

/// A client submits a request, a write with its bytes, which is taken under the next number of the history.
///
/// # Errors
///
/// Those of `AskFault`, in their order; nothing changes then.
pub fn submit_request(
    session: &mut Session,
    client: u32,
    ask: Ask,
    bytes: Option<&[u8]>,
) -> Result<u64, AskFault>
    requires awake { IsAwake (core_of session.old) }
    requires rooms { HasRooms session.old }
    requires asks { IsAsking ask (option_copied bytes) }
    ensures gives { SubmitGives (core_of session.old) (core_of session.new) client ask (option_copied bytes.entry) result }
    ensures rooms { SameRooms session.old session.new }
{
    match ask_fault(session, &ask) {
        Some(fault) => Err(fault),
        None => Ok(begin(session, client, ask, bytes)),
    }
}
