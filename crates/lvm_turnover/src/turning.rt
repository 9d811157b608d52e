//! A session turns to its group's next descriptor, and goes on with what came of it.
ghost use Rattle.std.specs.Prelude.{◌≡◌, ◌≤◌, ℕ, None, false, length, replicate, slice_set, take, IsTrue};
ghost use Rattle.lvm_num.specs.StatusBytes.{status_bytes};
ghost use Rattle.lvm_num.specs.declared.record.Kind.TheVariants as kind;
ghost use Rattle.lvm_num.specs.Descriptor.{IsValid, is_member};
ghost use Rattle.lvm_num.specs.Disks.{has};
ghost use Rattle.lvm_num.specs.Record.{longest_content};
ghost use Rattle.lvm_status.specs.Members.{HasItsRows};
ghost use Rattle.lvm_commit.specs.Settling.{IfBack, IsOf, MayCommit};
ghost use Rattle.lvm_session_start.specs.passed.Pbuf.{IsOut};
ghost use Rattle.lvm_session.specs.declared.open.Power.TheVariants as power;
ghost use Rattle.lvm_session.specs.Fields.{core_of};
ghost use Rattle.lvm_session.specs.Rooms.{SameRooms};
ghost use Rattle.lvm_session.specs.State.{state, is_there};
ghost use Rattle.lvm_core.specs.Sound.{HasNoneOpen};
ghost use Rattle.lvm_core.specs.Committing.{with_one_out};
ghost use Rattle.lvm_core.specs.Steps.{EndsAs};
ghost use Rattle.lvm_change.specs.Parting.{PartsWith};
ghost use Rattle.lvm_mwc.specs.Cache.{flight_on};
ghost use Rattle.lvm_turnover.specs.Turning.{IsPrepared, IsTurnBy, MaySend, MayTurnSession, IsSent, IsSettledBy, BeginsWith, TurnsSession, core_after};

use crate::change::{Change, Leaving};
use lvm_change::{Transition, TransitionEnd, make_transition, next_stamp, part_with, without};
use lvm_commit::{CommitEnd, commit_status};
use lvm_core::CommitFault;
use lvm_core::below::{Patience, Power};
use lvm_disk::Shelf;
use lvm_num::{Descriptor, DiskSet, Pbuf};
use lvm_session::{Session, darken};
use lvm_status::{StaleTable, members_there};

/// Turns a session to the next descriptor of its group, without the member that leaves, where one does. The members that weren't reached become
/// missing, and a status says so before the call answers. It takes no memory.
pub fn turn_session<S: Shelf>(
    session: &mut Session,
    shelf: &mut S,
    change: Change,
    patience: &mut Patience,
) -> Result<(), CommitFault>
    requires some { 1 ≤ length session.old.pool }
    requires buffers { session.old.pool ≡ replicate (length session.old.pool) false }
    requires none { HasNoneOpen (core_of session.old) }
    requires bytes { 131072 ≤ length session.old.bytes.items }
    requires may { MayTurnSession change (state (S.device shelf.old) (core_of session.old)) }
    ensures does { TurnsSession change patience.old.left patience.new.left (state (S.device shelf.old) (core_of session.old)) (state (S.device shelf.new) (core_of session.new)) result }
    ensures rooms { SameRooms session.old session.new }
{
    let there = members_there(&session.descriptor, session.updater.wanted());
    let stay = members_there(&change.next, session.updater.wanted());
    match send(session, shelf, &change, there, patience) {
        TransitionEnd::Done { written, buf } => {
            take_over(session, change, without(stay, written));
            settle(session, shelf, buf, patience)
        }
        TransitionEnd::WentOff {
            have,
            total,
            written,
            buf,
        } => {
            give_up(session, without(there, written), buf);
            Err(CommitFault::WentOff { have, total })
        }
        TransitionEnd::Dark => {
            darken(session);
            Err(CommitFault::Dark)
        }
        TransitionEnd::Stuck => Err(CommitFault::Stuck),
    }
}

// The first buffer, where all are in.
fn take_buffer(session: &mut Session) -> Pbuf
    requires some { 1 ≤ length session.old.pool }
    requires all { session.old.pool ≡ replicate (length session.old.pool) false }
    ensures number { result.number ≡ 0 }
    ensures taken { session.new ≡ record session.old { pool = with_one_out session.old.pool } }
{
    match session.pool.take() {
        Some(buf) => buf,
        None => unreachable!(),
    }
}

// Writes the two records of a turn, under the next two stamps.
fn send<S: Shelf>(
    session: &mut Session,
    shelf: &mut S,
    change: &Change,
    there: DiskSet,
    patience: &mut Patience,
) -> TransitionEnd
    requires some { 1 ≤ length session.old.pool }
    requires buffers { session.old.pool ≡ replicate (length session.old.pool) false }
    requires bytes { 131072 ≤ length session.old.bytes.items }
    requires may { MaySend change.now (has there) (state (S.device shelf.old) (core_of session.old)) }
    ensures sent { IsSent change.now (has there) patience.old.left patience.new.left (state (S.device shelf.old) (core_of session.old)) (state (S.device shelf.new) (core_of session.new)) result }
    ensures rooms { SameRooms session.old session.new }
{
    let buf = take_buffer(session);
    let stamp = session.updater.stamp();
    let first = next_stamp(stamp);
    let last = next_stamp(first);
    session.updater.set_stamp(last);
    let count = spell_status(session, change.tables.told());
    let turn = turn_by(change, &session.descriptor, &session.bytes[..count]);
    make_transition(shelf, turn, stamp, there, &mut session.homes, buf, patience)
}

// The turn to the next descriptor from the one that is committed, with these bytes of its status.
fn turn_by<'a>(change: &'a Change, was: &'a Descriptor, status: &'a [u8]) -> Transition<'a>
    requires prepared { IsPrepared change.now }
    requires status { status.now ≡ status_bytes change.now.tables.told }
    ensures { IsTurnBy change.now was.now result }
{
    Transition {
        was,
        next: &change.next,
        told: change.tables.told().as_status(),
        status,
        content: change.content.as_slice(),
    }
}

// Writes the bytes of a status to the front of those that the session has room for, and answers how many these are.
fn spell_status(session: &mut Session, told: &StaleTable) -> usize
    requires { 131072 ≤ length session.old.bytes.items }
    ensures spelled { take result session.new.bytes.items ≡ status_bytes told.now }
    ensures within { result ≤ length session.new.bytes.items }
    ensures same { session.new ≡ record session.old { bytes = session.new.bytes } }
    ensures long { length session.new.bytes.items ≡ length session.old.bytes.items }
{
    lvm_vgsa::encode_into(told.as_status(), &mut session.bytes)
}

// The session is one of the next descriptor, without the member that leaves, and with the status that stands on its disks; these members are wanted missing.
fn take_over(session: &mut Session, change: Change, lost: DiskSet)
    requires valid { IsValid change.next }
    requires prepared { IsPrepared change }
    requires rows { HasItsRows change.next change.tables.told }
    requires idle { session.old.updater.in_flight ≡ None }
    requires members { (disk : ℕ) → IsTrue (has lost disk) → IsTrue (is_member change.next disk) }
    requires still { (disk : ℕ) → flight_on session.old.cache disk ≡ None }
    ensures core { core_of session.new ≡ record (core_after change.leaving (core_of session.old)) { descriptor = change.next; status = session.new.updater } }
    ensures parts { BeginsWith change (has lost) session.old.updater.stamp session.new.updater }
    ensures rooms { SameRooms session.old session.new }
{
    let Change {
        next,
        content: _,
        tables,
        leaving,
    } = change;
    session.updater.install(tables);
    part_with(&next, &mut session.updater, lost);
    session.descriptor = next;
    let_go(session, leaving);
}

// The session goes on without the notes of the member that leaves, where one does, and with the rows of those that stay.
fn let_go(session: &mut Session, leaving: Option<Leaving>)
    requires still { (disk : ℕ) → flight_on session.old.cache disk ≡ None }
    ensures core { core_of session.new ≡ core_after leaving (core_of session.old) }
    ensures rooms { SameRooms session.old session.new }
{
    if let Some(Leaving { disk, origin }) = leaving {
        session.cache.dismiss(disk);
        session.origin.table = origin;
    }
}

// The session goes off with its descriptor; these members are wanted missing.
fn give_up(session: &mut Session, lost: DiskSet, buf: Pbuf)
    requires valid { IsValid session.old.descriptor }
    requires own { IsOf session.old.descriptor session.old.updater }
    requires idle { session.old.updater.in_flight ≡ None }
    requires rows { HasItsRows session.old.updater.group session.old.updater.wanted }
    requires members { (disk : ℕ) → IsTrue (has lost disk) → IsTrue (is_member session.old.descriptor disk) }
    requires out { IsOut session.old.pool buf.number }
    ensures core { core_of session.new ≡ record (core_of session.old) { pool = slice_set session.old.pool buf.number false; status = session.new.updater; power = power.Off } }
    ensures parts { PartsWith session.old.descriptor (has lost) session.old.updater session.new.updater }
    ensures rooms { SameRooms session.old session.new }
{
    part_with(&session.descriptor, &mut session.updater, lost);
    session.pool.give(buf);
    session.power = Power::Off;
}

// Commits what is wanted of the status.
fn settle<S: Shelf>(
    session: &mut Session,
    shelf: &mut S,
    buf: Pbuf,
    patience: &mut Patience,
) -> Result<(), CommitFault>
    requires may { MayCommit 1 session.old.descriptor session.old.updater (S.device shelf.old) }
    requires bytes { 131072 ≤ length session.old.bytes.items }
    requires none { HasNoneOpen (core_of session.old) }
    requires out { IsOut session.old.pool 0 }
    requires number { buf.number ≡ 0 }
    ensures settles { IsSettledBy patience.old.left patience.new.left (state (S.device shelf.old) (core_of session.old)) (state (S.device shelf.new) (core_of session.new)) result }
    ensures rooms { SameRooms session.old session.new }
{
    let settled = commit_status(
        shelf,
        &session.descriptor,
        &mut session.updater,
        &mut session.homes,
        &mut session.bytes,
        buf,
        patience,
    );
    go_on(session, settled)
}

// Goes on after a status was written: takes the buffer back, or ends.
fn go_on(session: &mut Session, settled: CommitEnd) -> Result<(), CommitFault>
    requires none { HasNoneOpen (core_of session.old) }
    requires out { IfBack settled (λ back. IsOut session.old.pool back.number) }
    ensures ends { EndsAs (core_of session.old) (core_of session.new) settled result }
    ensures rooms { SameRooms session.old session.new }
{
    match settled {
        CommitEnd::Done { buf } => {
            session.pool.give(buf);
            Ok(())
        }
        CommitEnd::WentOff { have, total, buf } => {
            session.pool.give(buf);
            session.power = Power::Off;
            Err(CommitFault::WentOff { have, total })
        }
        CommitEnd::Dark => {
            darken(session);
            Err(CommitFault::Dark)
        }
        CommitEnd::Stuck => Err(CommitFault::Stuck),
    }
}
