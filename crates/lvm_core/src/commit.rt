//! What a session writes by itself: zeros, its statuses and its descriptors.
ghost use Rattle.std.specs.Prelude.{◌≡◌, ◌≤◌, ◌<◌, ◌++◌, false, length, replicate, All};
ghost use Rattle.lvm_disk.specs.Device.{IsReady};
ghost use Rattle.lvm_session_start.specs.passed.Pbuf.{IsOut};
ghost use Rattle.lvm_status.specs.Calls.{IsMarkable};
ghost use Rattle.lvm_commit.specs.Committed.{IsAlike};
ghost use Rattle.lvm_commit.specs.Settling.{HoldsWithin, IfBack, MayCommit};
ghost use Rattle.lvm_session.specs.Fields.{core_of};
ghost use Rattle.lvm_session.specs.Rooms.{HasRooms, SameRooms};
ghost use Rattle.lvm_session.specs.State.{state};
ghost use Rattle.lvm_core.specs.Sound.{IsFittingAtRest, HasNoneOpen};
ghost use Rattle.lvm_core.specs.Committing.{with_one_out};
ghost use Rattle.lvm_num.specs.Status.{IsVolumeNumber};
ghost use Rattle.lvm_core.specs.Steps.{EndsAs, EndsWith, CommitsDescriptor, CommitsMarks, CommitsDirt};
ghost use Rattle.lvm_core.specs.Zeros.{WritesZeros, HasSectorsOf};

use crate::fault::CommitFault;
use crate::marks::{mark, mark_volumes};
use crate::prepared::Prepared;
use crate::zero::write_zeros;
use lvm_commit::below::{Moved, Patience};
use lvm_commit::{CommitEnd, commit_descriptor, commit_status};
use lvm_disk::Shelf;
use lvm_num::{Descriptor, Pbuf, Pp};
use lvm_session::{Power, Session, darken};

// The first buffer, where all are in.
fn take_buffer(session: &mut Session) -> Pbuf
    requires some { 1 ≤ length session.old.pool }
    requires all { session.old.pool ≡ replicate (length session.old.pool) false }
    ensures number { result.number ≡ 0 }
    ensures taken { session.new ≡ record session.old { pool = with_one_out session.old.pool } }
{
    match session.pool.take() {
        Some(buf) => buf,
        None => unreachable!(),
    }
}

/// Writes zeros to a partition.
pub fn zero<S: Shelf>(
    session: &mut Session,
    shelf: &mut S,
    pp: Pp,
    patience: &mut Patience,
) -> Result<(), CommitFault>
    requires ready { IsReady (S.device shelf.old) }
    requires fitting { IsFittingAtRest (core_of session.old) }
    requires none { HasNoneOpen (core_of session.old) }
    requires buffers { session.old.pool ≡ replicate (length session.old.pool) false }
    requires partition { pp.pp < 1016 }
    requires room { HasSectorsOf (S.device shelf.old).sizes session.old.descriptor.mib pp }
    ensures does { WritesZeros pp patience.old.left patience.new.left (state (S.device shelf.old) (core_of session.old)) (state (S.device shelf.new) (core_of session.new)) result }
    ensures rooms { SameRooms session.old session.new }
{
    let buf = take_buffer(session);
    match write_zeros(shelf, session.descriptor.mib, pp, buf, patience) {
        Moved::Done(back) => {
            session.pool.give(back);
            Ok(())
        }
        Moved::Failed(back) => {
            session.pool.give(back);
            Err(CommitFault::DiskFailed { disk: pp.disk })
        }
        Moved::Dark { .. } => {
            darken(session);
            Err(CommitFault::Dark)
        }
        Moved::Stuck => Err(CommitFault::Stuck),
    }
}

// Goes on after records were written: takes the buffer back, or ends.
fn go_on(session: &mut Session, settled: CommitEnd) -> Result<(), CommitFault>
    requires none { HasNoneOpen (core_of session.old) }
    requires out { IfBack settled (λ back. IsOut session.old.pool back.number) }
    ensures ends { EndsAs (core_of session.old) (core_of session.new) settled result }
    ensures rooms { SameRooms session.old session.new }
{
    match settled {
        CommitEnd::Done { buf } => {
            session.pool.give(buf);
            Ok(())
        }
        CommitEnd::WentOff { have, total, buf } => {
            session.pool.give(buf);
            session.power = Power::Off;
            Err(CommitFault::WentOff { have, total })
        }
        CommitEnd::Dark => {
            darken(session);
            Err(CommitFault::Dark)
        }
        CommitEnd::Stuck => Err(CommitFault::Stuck),
    }
}

// So it goes on, with this descriptor where it is committed.
fn go_on_with(
    session: &mut Session,
    next: Descriptor,
    settled: CommitEnd,
) -> Result<(), CommitFault>
    requires none { HasNoneOpen (core_of session.old) }
    requires out { IfBack settled (λ back. IsOut session.old.pool back.number) }
    ensures ends { EndsWith next (core_of session.old) (core_of session.new) settled result }
    ensures rooms { SameRooms session.old session.new }
{
    match go_on(session, settled) {
        Ok(()) => {
            session.descriptor = next;
            Ok(())
        }
        Err(fault) => Err(fault),
    }
}

/// Commits a descriptor.
pub fn commit<S: Shelf>(
    session: &mut Session,
    shelf: &mut S,
    next: Prepared,
    patience: &mut Patience,
) -> Result<(), CommitFault>
    requires fitting { IsFittingAtRest (core_of session.old) }
    requires none { HasNoneOpen (core_of session.old) }
    requires buffers { session.old.pool ≡ replicate (length session.old.pool) false }
    requires rooms { HasRooms session.old }
    requires may { MayCommit 2 session.old.descriptor session.old.updater (S.device shelf.old) }
    requires settled { session.old.updater.committed ≡ session.old.updater.wanted }
    requires alike { IsAlike next session.old.descriptor }
    ensures does { CommitsDescriptor next patience.old.left patience.new.left (state (S.device shelf.old) (core_of session.old)) (state (S.device shelf.new) (core_of session.new)) result }
    ensures held { HoldsWithin session.old.updater session.new.updater }
    ensures rooms { SameRooms session.old session.new }
{
    let (descriptor, content) = next.into_parts();
    let buf = take_buffer(session);
    let settled = commit_descriptor(
        shelf,
        &descriptor,
        &mut session.updater,
        &mut session.homes,
        content.as_slice(),
        &mut session.bytes,
        buf,
        patience,
    );
    go_on_with(session, descriptor, settled)
}

/// Commits a status with these marks.
pub fn set_status<S: Shelf>(
    session: &mut Session,
    shelf: &mut S,
    stale: &[Pp],
    fresh: &[Pp],
    patience: &mut Patience,
) -> Result<(), CommitFault>
    requires fitting { IsFittingAtRest (core_of session.old) }
    requires none { HasNoneOpen (core_of session.old) }
    requires buffers { session.old.pool ≡ replicate (length session.old.pool) false }
    requires rooms { HasRooms session.old }
    requires may { MayCommit 1 session.old.descriptor session.old.updater (S.device shelf.old) }
    requires markable { All (IsMarkable session.old.updater.wanted) (stale.now ++ fresh.now) }
    ensures does { CommitsMarks stale.now fresh.now patience.old.left patience.new.left (state (S.device shelf.old) (core_of session.old)) (state (S.device shelf.new) (core_of session.new)) result }
    ensures held { HoldsWithin session.old.updater session.new.updater }
    ensures rooms { SameRooms session.old session.new }
{
    mark(&mut session.updater, stale, fresh);
    let buf = take_buffer(session);
    let settled = commit_status(
        shelf,
        &session.descriptor,
        &mut session.updater,
        &mut session.homes,
        &mut session.bytes,
        buf,
        patience,
    );
    go_on(session, settled)
}

/// Commits a status with these volumes dirty and those not.
pub fn mark_dirty<S: Shelf>(
    session: &mut Session,
    shelf: &mut S,
    dirty: &[u16],
    clean: &[u16],
    patience: &mut Patience,
) -> Result<(), CommitFault>
    requires fitting { IsFittingAtRest (core_of session.old) }
    requires none { HasNoneOpen (core_of session.old) }
    requires buffers { session.old.pool ≡ replicate (length session.old.pool) false }
    requires rooms { HasRooms session.old }
    requires may { MayCommit 1 session.old.descriptor session.old.updater (S.device shelf.old) }
    requires numbers { All IsVolumeNumber (dirty.now ++ clean.now) }
    ensures does { CommitsDirt dirty.now clean.now patience.old.left patience.new.left (state (S.device shelf.old) (core_of session.old)) (state (S.device shelf.new) (core_of session.new)) result }
    ensures held { HoldsWithin session.old.updater session.new.updater }
    ensures rooms { SameRooms session.old session.new }
{
    mark_volumes(&mut session.updater, dirty, clean);
    let buf = take_buffer(session);
    let settled = commit_status(
        shelf,
        &session.descriptor,
        &mut session.updater,
        &mut session.homes,
        &mut session.bytes,
        buf,
        patience,
    );
    go_on(session, settled)
}
