//! The descriptor of a move is committed, beside requests that wait for it.
ghost use Rattle.std.specs.Prelude.{◌≡◌, ◌≤◌, false, None, length, replicate};
ghost use Rattle.lvm_session.specs.passed.Pbuf.{IsOut};
ghost use Rattle.lvm_calls.specs.Reviewing.{MayReview};
ghost use Rattle.lvm_commit.specs.Settling.{IfBack, IsContentOf, MayCommit};
ghost use Rattle.lvm_core.specs.Committing.{with_one_out};
ghost use Rattle.lvm_session.specs.Fields.{core_of};
ghost use Rattle.lvm_session.specs.Rooms.{HasRooms, SameRooms};
ghost use Rattle.lvm_session.specs.State.{state};
ghost use Rattle.lvm_move.specs.Moving.{CanBreakOff, CommitsMove, GoesOnMoved, IfDone, MayWriteMove, MoveEndsAs, MoveEndsWith, WritesMove, missing_destination};

use lvm_calls::review;
use lvm_commit::below::Patience;
use lvm_commit::{CommitEnd, commit_descriptor};
use lvm_core::CommitFault;
use lvm_disk::Shelf;
use lvm_due::is_missing;
use lvm_num::{Descriptor, Pbuf};
use lvm_session::{Session, darken, go_off};

// The disk of the copy that is open, where it is missing.
fn missing_destination(session: &Session) -> Option<u16>
    ensures { result ≡ missing_destination (core_of session.now) }
{
    match &session.copy {
        None => None,
        Some(copy) => {
            let disk = copy.pp.disk;
            if is_missing(session, disk) {
                Some(disk)
            } else {
                None
            }
        }
    }
}

// The first buffer, where all are in.
fn take_first(session: &mut Session) -> Pbuf
    requires some { 1 ≤ length session.old.pool }
    requires all { session.old.pool ≡ replicate (length session.old.pool) false }
    ensures number { result.number ≡ 0 }
    ensures taken { session.new ≡ record session.old { pool = with_one_out session.old.pool } }
{
    match session.pool.take() {
        Some(buf) => buf,
        None => unreachable!(),
    }
}

// Goes on after the records were written: takes the buffer back, or ends with all that waits.
fn go_on(session: &mut Session, how: CommitEnd) -> Result<(), CommitFault>
    requires can { CanBreakOff (core_of session.old) }
    requires out { IfBack how (λ back. IsOut session.old.pool back.number) }
    ensures ends { MoveEndsAs (core_of session.old) (core_of session.new) how result }
    ensures rooms { SameRooms session.old session.new }
{
    match how {
        CommitEnd::Done { buf } => {
            session.pool.give(buf);
            Ok(())
        }
        CommitEnd::WentOff { have, total, buf } => {
            session.pool.give(buf);
            go_off(session);
            Err(CommitFault::WentOff { have, total })
        }
        CommitEnd::Dark => {
            darken(session);
            Err(CommitFault::Dark)
        }
        CommitEnd::Stuck => Err(CommitFault::Stuck),
    }
}

// The session has this descriptor, and no copy is open. What that leaves behind becomes wanted stale.
fn put_in(session: &mut Session, next: Descriptor)
    requires may { MayReview (record (core_of session.old) { descriptor = next; copy = None }) }
    ensures goes { GoesOnMoved next (core_of session.old) (core_of session.new) }
    ensures rooms { SameRooms session.old session.new }
{
    session.descriptor = next;
    session.copy = None;
    review(session);
}

// So it goes on, where the descriptor is committed.
fn go_on_with(session: &mut Session, next: Descriptor, how: CommitEnd) -> Result<(), CommitFault>
    requires can { CanBreakOff (core_of session.old) }
    requires out { IfBack how (λ back. IsOut session.old.pool back.number) }
    requires may { IfDone how (MayReview (record (core_of session.old) { descriptor = next; copy = None })) }
    ensures ends { MoveEndsWith next (core_of session.old) (core_of session.new) how result }
    ensures rooms { SameRooms session.old session.new }
{
    match go_on(session, how) {
        Ok(()) => {
            put_in(session, next);
            Ok(())
        }
        Err(fault) => Err(fault),
    }
}

// Writes the descriptor, and goes on as that ended.
fn write_move<S: Shelf>(
    session: &mut Session,
    shelf: &mut S,
    next: Descriptor,
    content: &[u8],
    patience: &mut Patience,
) -> Result<(), CommitFault>
    requires may { MayCommit 2 next session.old.updater (S.device shelf.old) }
    requires settled { session.old.updater.committed ≡ session.old.updater.wanted }
    requires content { IsContentOf next content.now }
    requires rooms { HasRooms session.old }
    requires writes { MayWriteMove (core_of session.old) }
    ensures does { WritesMove next content.now patience.old.left patience.new.left (state (S.device shelf.old) (core_of session.old)) (state (S.device shelf.new) (core_of session.new)) result }
    ensures rooms { SameRooms session.old session.new }
{
    let buf = take_first(session);
    let how = commit_descriptor(
        shelf,
        &next,
        &mut session.updater,
        &mut session.homes,
        content,
        &mut session.bytes,
        buf,
        patience,
    );
    go_on_with(session, next, how)
}

/// Commits the descriptor in which the copy that has moved stands on its destination, and closes the copy. It is called
/// once turns find nothing to do and nothing is out: what waits is held back by the move. `content` is the bytes of the
/// descriptor. It takes no memory.
///
/// # Errors
///
/// - `DiskFailed`: the destination's disk is missing. Nothing was written, and nothing has changed.
/// - `WentOff`: the votes were lost while it wrote; all that waited has landed as Off.
/// - `Dark`: the power was cut; all that waited has landed as Dark.
/// - `Stuck`: nothing was heard of a transfer until the patience had run out. It is out.
pub fn commit_move<S: Shelf>(
    session: &mut Session,
    shelf: &mut S,
    next: Descriptor,
    content: &[u8],
    patience: &mut Patience,
) -> Result<(), CommitFault>
    requires may { MayCommit 2 next session.old.updater (S.device shelf.old) }
    requires settled { session.old.updater.committed ≡ session.old.updater.wanted }
    requires content { IsContentOf next content.now }
    requires rooms { HasRooms session.old }
    requires writes { MayWriteMove (core_of session.old) }
    ensures does { CommitsMove next content.now patience.old.left patience.new.left (state (S.device shelf.old) (core_of session.old)) (state (S.device shelf.new) (core_of session.new)) result }
    ensures rooms { SameRooms session.old session.new }
{
    match missing_destination(session) {
        Some(disk) => Err(CommitFault::DiskFailed { disk }),
        None => write_move(session, shelf, next, content, patience),
    }
}
