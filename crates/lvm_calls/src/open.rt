//! A copy is opened, or begins to move.
ghost use Rattle.std.specs.Prelude.{◌≡◌, Err, None, map};
ghost use Rattle.lvm_status.specs.Calls.{IsMarkable};
ghost use Rattle.lvm_status.specs.Members.{HasItsRows};
ghost use Rattle.lvm_session.specs.Fields.{core_of};
ghost use Rattle.lvm_session.specs.Rooms.{SameRooms};
ghost use Rattle.lvm_session.specs.Calls.{CallsStale, OpenGives, OpenMoveGives, Opens, OpensMove, aged};
ghost use Rattle.lvm_session.specs.declared.answers.OpenFault.TheVariants as denial;
ghost use Rattle.lvm_session.specs.Asking.{IsAwake};
ghost use Rattle.lvm_session.specs.Sound.{IsGoing};
ghost use Rattle.lvm_calls.specs.Opening.{HasCopy, counts_seen};

use crate::copy::copy_fault;
use crate::enter::enter_step;
use crate::moving::move_fault;
use crate::opened::{opened, opened_move};
use lvm_disk::Shelf;
use lvm_num::Pp;
use lvm_session::{CopyFault, Open, OpenFault, Session};

// Their targets were chosen before the copy was opened.
fn age_all(requests: &mut [Open])
    ensures { requests.new ≡ map aged requests.old }
{
    for open in requests.iter_mut() {
        open.older = true;
    }
}

fn age_table(session: &mut Session)
    ensures core { core_of session.new ≡ record (core_of session.old) { requests = map aged session.old.requests.items } }
    ensures rooms { SameRooms session.old session.new }
{
    age_all(&mut session.requests);
}

// A copy begins to be brought up.
fn bring_up<S: Shelf>(session: &mut Session, shelf: &S, lv: u16, lp: u32, number: u8)
    requires going { IsGoing (core_of session.old) }
    requires none { session.old.copy ≡ None }
    requires its { HasCopy session.old.descriptor lv lp number }
    ensures opens { Opens (counts_seen (S.device shelf.now) (core_of session.old)) (core_of session.old) (core_of session.new) lv lp number }
    ensures rooms { SameRooms session.old session.new }
{
    let copy = opened(session, shelf, lv, lp, number);
    age_table(session);
    enter_step(session, copy);
}

/// A client opens a copy, from 1, of a logical partition, from 0, of a volume, which is brought up from then on.
///
/// # Errors
///
/// Those of `CopyFault`, in their order; nothing changes then.
pub fn open_copy<S: Shelf>(
    session: &mut Session,
    shelf: &S,
    lv: u16,
    lp: u32,
    number: u8,
) -> Result<(), CopyFault>
    requires { IsAwake (core_of session.old) }
    ensures gives { OpenGives (counts_seen (S.device shelf.now) (core_of session.old)) (core_of session.old) (core_of session.new) lv lp number result }
    ensures rooms { SameRooms session.old session.new }
{
    match copy_fault(session, lv, lp, number) {
        Some(fault) => Err(fault),
        None => {
            bring_up(session, shelf, lv, lp, number);
            Ok(())
        }
    }
}

// The partition counts as stale since the session began.
fn call_stale(session: &mut Session, pp: Pp)
    requires { IsMarkable session.old.origin.table pp }
    ensures core { core_of session.new ≡ record (core_of session.old) { origin = session.new.origin } }
    ensures called { CallsStale pp session.old.origin session.new.origin }
    ensures rooms { SameRooms session.old session.new }
{
    session.origin.table.mark(pp);
}

// A copy begins to move.
fn bring_to<S: Shelf>(session: &mut Session, shelf: &S, lv: u16, lp: u32, number: u8, to: Pp)
    requires going { IsGoing (core_of session.old) }
    requires none { session.old.copy ≡ None }
    requires its { HasCopy session.old.descriptor lv lp number }
    requires markable { IsMarkable session.old.origin.table to }
    ensures opens { OpensMove (counts_seen (S.device shelf.now) (core_of session.old)) (core_of session.old) (core_of session.new) lv lp number to }
    ensures rooms { SameRooms session.old session.new }
{
    let copy = opened_move(session, shelf, lv, lp, number, to);
    call_stale(session, to);
    age_table(session);
    enter_step(session, copy);
}

/// A client opens a move of a copy, from 1, of a logical partition, from 0, of a volume: from then on the partition
/// is brought up, and the copy goes on beside it.
///
/// # Errors
///
/// Those of `OpenFault` but for `Memory`, of which it takes none, in their order; nothing changes then.
pub fn open_move<S: Shelf>(
    session: &mut Session,
    shelf: &S,
    lv: u16,
    lp: u32,
    number: u8,
    to: Pp,
) -> Result<(), OpenFault>
    requires awake { IsAwake (core_of session.old) }
    requires rows { HasItsRows session.old.descriptor session.old.origin.table }
    ensures gives { OpenMoveGives (counts_seen (S.device shelf.now) (core_of session.old)) (core_of session.old) (core_of session.new) lv lp number to result }
    ensures memory { result ≡ Err denial.Memory → ⊥ }
    ensures rooms { SameRooms session.old session.new }
{
    match move_fault(session, lv, lp, number, to) {
        Some(fault) => Err(fault),
        None => {
            bring_to(session, shelf, lv, lp, number, to);
            Ok(())
        }
    }
}
