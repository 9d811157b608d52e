//! A session over its shelf.
ghost use Rattle.std.specs.Prelude.{◌≡◌, ◌≢◌, ◌≤◌, ◌<◌, ◌+◌, ◌^◌, ◌↔◌, IfErr, IsTrue, ℕ, true, false, None, Some, [], length, option_copied, slice_get};
ghost use Rattle.std.specs.List.{list_any};
ghost use Rattle.lvm_num.specs.Descriptor.{IsValid};
ghost use Rattle.lvm_num.specs.Votes.{total_votes};
ghost use Rattle.lvm_disk.specs.Steps.{MayArrange};
ghost use Rattle.lvm_vol.specs.Log.{is_open, spare_entries};
ghost use Rattle.lvm_session.specs.declared.open.Power.TheVariants as power;
ghost use Rattle.lvm_session.specs.Judging.{is_missing, is_waiting};
ghost use Rattle.lvm_session.specs.Fields.{core_of};
ghost use Rattle.lvm_session.specs.Rooms.{HasRooms};
ghost use Rattle.lvm_session.specs.State.{state, votes_there, state_of};
ghost use Rattle.lvm_session.specs.declared.answers.CopyState.TheVariants as stage;
ghost use Rattle.lvm_session.specs.Calls.{OpenGives, OpenMoveGives, SubmitGives, TakeGives, closed, copy_state};
ghost use Rattle.lvm_session.specs.Turns.{ArrangesSession, TurnMakes};
ghost use Rattle.lvm_session.specs.Asking.{IsAsking};
ghost use Rattle.lvm_session.specs.Left.{left_of};
ghost use Rattle.lvm_session.specs.Sound.{IsSound};
ghost use Rattle.lvm_keeps.specs.Falls.{most_left};
ghost use Rattle.lvm_keeps_events.specs.Opening.{IsApart};
ghost use Rattle.lvm_keeps_events.specs.passed.Calls.{counts_seen};
ghost use Rattle.lvm_keeps_events.specs.Reading.{GetsItsBlocks};
ghost use Rattle.lvm_keeps_events.specs.Telling.{TurnTells};
ghost use Rattle.lvm_going.specs.Frames.{is_moving};
ghost use Rattle.lvm_going.specs.Going.{CommitsOpenMove, LeavesMoving, LeavesSession, RunsOn};
ghost use Rattle.lvm_going.specs.Statuses.{AreValid};
ghost use Rattle.lvm_session_start.specs.Beginning.{AreFaults, MayBeginSession, first_core};
ghost use Rattle.lvm_core.specs.declared.fault.CommitFault.TheVariants as fault;
ghost use Rattle.lvm_driver.specs.Drains.{IsDrained};
ghost use Rattle.lvm_driver.specs.Answers.{IsCausedFor, IsCopyCaused, IsOffSince};

use crate::commits::commit_ready;
use crate::dues::{all_due, submit, take};
use crate::moves::{is_apart, prepare_move};
use lvm_core::{Closed, CommitFault, Prepared, without_freed};
use lvm_disk::{Arrange, Shelf};
use lvm_due::{is_missing, left};
use lvm_history::History;
use lvm_keeps_events::below::{close_copy, copy_state, open_copy, open_move};
use lvm_num::{Descriptor, Pp, Stamp};
use lvm_path::Ask;
use lvm_rec::Homes;
use lvm_session::{AskFault, CopyFault, CopyState, OpenFault, Power, Session, Taken, Turned};
use lvm_session_start::{Parts, begin_session};
use lvm_session_turn::below::Due;
use lvm_session_turn::{arrange, turn};
use lvm_status::StaleTable;
use lvm_transfer::Patience;
use std::alloc::Global;
use std::marker::Model;

/// A group that is varied on, over its shelf. Clients submit requests to it and take their answers; what is done
/// about them is done by turns, one event at a time. No call of it but `open_move` answers for want of memory. Each call leaves a good
/// session good, and at each moment of it the history is legal and each crash image kept with it; no call makes a descriptor found or
/// leaves a record of a later moment; and each landing since the session began has its cause. While a copy moves the descriptor in which
/// it stands on its new partition is ready.
#[derive(Drop)]
pub struct Driver<S: Shelf> {
    shelf: S,
    session: Session,
    due: Due,
    next: Option<Prepared>,
}

impl<S: Shelf> Model for Driver<S> {
    ghost use Rattle.std.specs.Prelude.{◌≡◌};
    ghost use Rattle.lvm_session.specs.Fields.{core_of};
    ghost use Rattle.lvm_session.specs.Rooms.{HasRooms};
    ghost use Rattle.lvm_session.specs.State.{Core, state};
    ghost use Rattle.lvm_session.specs.Sound.{IsSound};
    ghost use Rattle.lvm_session_turn.specs.passed.Due.{IsDue};
    ghost use Rattle.lvm_going.specs.Moves.{next_of};

    ghost Value = { S × Core };

    ghost view = { λ d. (d.shelf, core_of d.session) };

    ghost invariant = { λ d. HasRooms d.session × IsSound (state (S.device d.shelf) (core_of d.session)) × IsDue (core_of d.session) d.due × (d.next ≡ next_of (core_of d.session)) };
}

impl<S: Shelf> Driver<S> {
    /// Varies the group on: the session begins at the moment that is the epoch of the stamp, which is that of the last
    /// record that was written; `homes` are the slots to which the next ones go.
    pub fn start(parts: Parts, shelf: S, history: History, stamp: Stamp, homes: Homes) -> Driver<S>
        requires spare { 1 ≤ spare_entries history }
        requires may { MayBeginSession (S.device shelf) history stamp homes parts }
        ensures shelf { result.0 ≡ shelf }
        ensures core { result.1 ≡ first_core parts history stamp homes result.1.origin.faults }
        ensures faults { AreFaults (S.device shelf) result.1.origin.faults }
    {
        let session = begin_session(parts, &shelf, history, stamp, homes);
        let due = all_due(&session);
        Driver {
            shelf,
            session,
            due,
            next: None,
        }
    }

    /// A session over its shelf, from another driver, of which no copy moves.
    pub fn from_parts(shelf: S, session: Session) -> Driver<S>
        requires rooms { HasRooms session }
        requires sound { IsSound (state (S.device shelf) (core_of session)) }
        requires unmoved { is_moving (core_of session) ≡ false }
        ensures shelf { result.0 ≡ shelf }
        ensures core { result.1 ≡ core_of session }
    {
        let due = all_due(&session);
        Driver {
            shelf,
            session,
            due,
            next: None,
        }
    }

    /// Its shelf and its session, of which no copy moves, for another driver.
    pub fn into_parts(self) -> (S, Session)
        requires unmoved { is_moving self.1 ≡ false }
        ensures shelf { result.0 ≡ self.0 }
        ensures core { core_of result.1 ≡ self.1 }
        ensures rooms { HasRooms result.1 }
        ensures sound { IsSound (state (S.device self.0) self.1) }
    {
        (self.shelf, self.session)
    }

    /// Submits a request of a client, a write with its bytes. It is open under the number that is answered, from 1,
    /// until its answer is taken.
    ///
    /// # Errors
    ///
    /// Those of `AskFault`, in their order; nothing changes then.
    pub fn submit(&mut self, client: u32, ask: Ask, bytes: Option<&[u8]>) -> Result<u64, AskFault>
        requires unstuck { self.old.1.power ≡ power.Stuck → ⊥ }
        requires asks { IsAsking ask (option_copied bytes) }
        ensures shelf { self.new.0 ≡ self.old.0 }
        ensures gives { SubmitGives self.old.1 self.new.1 client ask (option_copied bytes.entry) result }
        ensures off { IsOffSince (state_of S.device self.old) }
        ensures runs { RunsOn (state_of S.device self.old) (state_of S.device self.new) }
    {
        submit(&mut self.session, &mut self.due, client, ask, bytes)
    }

    /// Makes one turn. The first event that may be made is: a request lands, is admitted or pins its track group, or
    /// a transfer is started. Where there is none one of the transfers that are out ends, and its owner learns it.
    pub fn turn(&mut self) -> Turned
        requires unstuck { self.old.1.power ≡ power.Stuck → ⊥ }
        ensures makes { TurnMakes (state_of S.device self.old) (state_of S.device self.new) result }
        ensures tells { TurnTells (state_of S.device self.old) (state_of S.device self.new) result }
        ensures runs { RunsOn (state_of S.device self.old) (state_of S.device self.new) }
        // Where the blocks come from that a read gets.
        ensures got { GetsItsBlocks (state_of S.device self.old) (state_of S.device self.new) }
    {
        statuses_are_valid(&self.session);
        turn(&mut self.session, &mut self.shelf, &mut self.due)
    }

    /// Takes the answer of a client's request of this number, which goes with it. `NotYet` where it hasn't landed,
    /// and `Unknown` where no such request of this client is open; both change nothing.
    pub fn take(&mut self, client: u32, id: u64) -> Taken
        ensures shelf { self.new.0 ≡ self.old.0 }
        ensures gives { TakeGives self.old.1 self.new.1 client id result }
        // Why it landed so, where it has.
        ensures caused { IsCausedFor (state_of S.device self.old) client id }
        ensures runs { RunsOn (state_of S.device self.old) (state_of S.device self.new) }
    {
        take(&mut self.session, &mut self.due, client, id)
    }

    /// How much work is left: each turn that has moved leaves less, and nothing is left once the session is over.
    pub fn left(&self) -> u64
        ensures is { result ≡ left_of self.now.1 }
        ensures most { result ≤ most_left self.now.1 }
    {
        left(&self.session)
    }

    /// Opens a copy, from 1, of a logical partition, from 0, of a volume, which is brought up from then on.
    ///
    /// # Errors
    ///
    /// Those of `CopyFault`, in their order; nothing changes then.
    pub fn open_copy(&mut self, lv: u16, lp: u32, number: u8) -> Result<(), CopyFault>
        requires unstuck { self.old.1.power ≡ power.Stuck → ⊥ }
        ensures shelf { self.new.0 ≡ self.old.0 }
        ensures gives { OpenGives (counts_seen (S.device self.old.0) self.old.1) self.old.1 self.new.1 lv lp number result }
        ensures off { IsOffSince (state_of S.device self.old) }
        ensures leaves { LeavesSession (state_of S.device self.old) (state_of S.device self.new) }
    {
        let answer = open_copy(&mut self.session, &self.shelf, lv, lp, number);
        self.due = all_due(&self.session);
        answer
    }

    /// Opens a move of a copy, from 1, of a logical partition, from 0, of a volume: from then on the partition is brought up
    /// beside it. No other copy of the logical partition stands on its disk.
    ///
    /// # Errors
    ///
    /// Those of `OpenFault`, in their order; `Memory` where the descriptor isn't ready for want of it. Nothing changes then.
    pub fn open_move(
        &mut self,
        alloc: Global,
        lv: u16,
        lp: u32,
        number: u8,
        to: Pp,
    ) -> Result<(), OpenFault>
        requires unstuck { self.old.1.power ≡ power.Stuck → ⊥ }
        requires apart { IsApart self.old.1.descriptor lv lp number to }
        ensures shelf { self.new.0 ≡ self.old.0 }
        ensures gives { OpenMoveGives (counts_seen (S.device self.old.0) self.old.1) self.old.1 self.new.1 lv lp number to result }
        ensures off { IsOffSince (state_of S.device self.old) }
        ensures leaves { LeavesMoving (state_of S.device self.old) (state_of S.device self.new) }
    {
        match prepare_move(alloc, &self.session, lv, lp, number, to) {
            Err(why) => Err(why),
            Ok(next) => {
                let answer = open_move(&mut self.session, &self.shelf, lv, lp, number, to);
                self.due = all_due(&self.session);
                self.next = Some(next);
                answer
            }
        }
    }

    /// Commits the move that is done: the copy stands on its new partition from then on. It is called once turns find nothing
    /// to do and nothing is out, so that what waits is held back by the move. The copy is closed however it ends. It takes no
    /// memory.
    ///
    /// # Errors
    ///
    /// - `WentOff`: the votes were lost while it wrote; all that waited has landed as Off.
    /// - `Dark`: the power was cut; all that waited has landed as Dark.
    /// - `Stuck`: nothing was heard of a transfer until the patience had run out. It is out, and the session is stuck.
    ///
    /// Not `DiskFailed`: a move whose disk is missing isn't done.
    pub fn commit_move(&mut self, patience: &mut Patience) -> Result<(), CommitFault>
        requires drained { IsDrained (state_of S.device self.old) }
        requires moves { is_moving self.old.1 ≡ true }
        requires done { copy_state self.old.1 ≡ stage.Done }
        requires epoch { self.old.1.status.stamp.epoch ≢ 0 }
        ensures commits { CommitsOpenMove patience.old.left patience.new.left (state_of S.device self.old) (state_of S.device self.new) result }
        ensures disks { IfErr result (λ why. (disk : ℕ) → why ≡ fault.DiskFailed disk → ⊥) }
        ensures closed { self.new.1.copy ≡ None }
        ensures leaves { LeavesMoving (state_of S.device self.old) (state_of S.device self.new) }
    {
        match self.next.take() {
            None => unreachable!(),
            Some(next) => {
                let answer = commit_ready(&mut self.session, &mut self.shelf, next, patience);
                self.due = all_due(&self.session);
                answer
            }
        }
    }

    /// Whether no copy of a logical partition but the one of this number, from 1, stands on the disk of the partition.
    pub fn is_apart(&self, lv: u16, lp: u32, number: u8, to: Pp) -> bool
        ensures { IsTrue result ↔ IsApart self.now.1.descriptor lv lp number to }
    {
        is_apart(&self.session.descriptor, lv, lp, number, to)
    }

    /// Whether a copy moves: a move is open, also one that has ended or is done.
    pub fn is_moving(&self) -> bool
        ensures { result ≡ is_moving self.now.1 }
    {
        self.next.is_some()
    }

    /// How far the copy is that is open.
    pub fn copy_state(&self) -> CopyState
        ensures is { result ≡ copy_state self.now.1 }
        // Why it failed, where it has.
        ensures caused { IsCopyCaused (state_of S.device self.now) }
    {
        copy_state(&self.session)
    }

    /// Closes the copy that is open, which isn't one that is running.
    pub fn close_copy(&mut self)
        requires ended { (cursor : ℕ) → copy_state self.old.1 ≡ stage.Running cursor → ⊥ }
        ensures shelf { self.new.0 ≡ self.old.0 }
        ensures closed { self.new.1 ≡ closed self.old.1 }
        ensures runs { RunsOn (state_of S.device self.old) (state_of S.device self.new) }
    {
        close_copy(&mut self.session);
        self.due = all_due(&self.session);
        self.next = None;
    }

    /// Gives an order to the shelf: a disk fails or heals, or the power is cut, which ends the session. Answers
    /// whether the shelf takes such orders; one that doesn't changes nothing.
    pub fn arrange(&mut self, what: Arrange) -> bool
        requires unstuck { self.old.1.power ≡ power.Stuck → ⊥ }
        requires may { MayArrange (S.device self.old.0) what }
        ensures gives { ArrangesSession (state_of S.device self.old) (state_of S.device self.new) what result }
        ensures leaves { LeavesSession (state_of S.device self.old) (state_of S.device self.new) }
    {
        let done = arrange(&mut self.session, &mut self.shelf, what);
        self.due = all_due(&self.session);
        done
    }

    /// Whether the session goes on.
    pub fn power(&self) -> Power
        ensures is { result ≡ self.now.1.power }
        // What holds of the session at every moment.
        ensures sound { IsSound (state_of S.device self.now) }
    {
        self.session.power
    }

    /// How many transfers are out.
    pub fn flights(&self) -> u32
        ensures { result ≡ length (S.device self.now.0).flights }
    {
        self.shelf.flights()
    }

    /// How many disks its shelf has.
    pub fn disks(&self) -> u16
        ensures number { result ≡ length (S.device self.now.0).sizes }
        ensures some { (1 ≤ result) × (result ≤ 128) }
    {
        self.shelf.disks()
    }

    /// How many sectors a disk of its shelf has.
    pub fn sectors(&self, disk: u16) -> u64
        requires { disk < length (S.device self.now.0).sizes }
        ensures { slice_get (S.device self.now.0).sizes disk ≡ Some result }
    {
        self.shelf.sectors(disk)
    }

    /// The stamp of the last record of this session.
    pub fn stamp(&self) -> Stamp
        ensures { result ≡ self.now.1.status.stamp }
    {
        self.session.updater.stamp()
    }

    /// How many sequence numbers are left for the stamps of this session's records.
    pub fn numbers_left(&self) -> u32
        ensures { result + self.now.1.status.stamp.seq + 1 ≡ 2 ^ 32 }
    {
        u32::MAX - self.session.updater.stamp().seq
    }

    /// The committed descriptor.
    pub fn descriptor(&self) -> &Descriptor
        ensures same { result.now ≡ self.now.1.descriptor }
        ensures valid { IsValid result.now }
    {
        &self.session.descriptor
    }

    /// The committed status.
    pub fn table(&self) -> &StaleTable
        ensures { result.now ≡ self.now.1.status.committed }
    {
        self.session.updater.committed()
    }

    /// Whether a disk is missing: it didn't answer when the session began, or a write of a record to it has failed since.
    pub fn is_missing(&self, disk: u16) -> bool
        ensures { result ≡ is_missing self.now.1 disk }
    {
        is_missing(&self.session, disk)
    }

    /// How many requests are open: submitted, and their answers not taken.
    pub fn open(&self) -> u32
        ensures { result ≡ length self.now.1.requests }
    {
        self.session.requests.len() as u32
    }

    /// How many requests may be open.
    pub fn most_open(&self) -> u32
        ensures { result ≡ self.now.1.most }
    {
        self.session.most
    }

    /// Whether the request of this number has begun and not landed.
    pub fn is_open(&self, id: u64) -> bool
        ensures { result ≡ is_open self.now.1.history.facts id }
    {
        self.session.history.is_open(id)
    }

    /// The votes of the members that aren't missing, and those of all. A disk is missing from the moment on at which
    /// a write of a record to it has failed.
    pub fn votes(&self) -> (u32, u32)
        ensures have { result.0 ≡ votes_there self.now.1 }
        ensures total { result.1 ≡ total_votes self.now.1.descriptor }
    {
        self.session.updater.votes()
    }

    /// What was asked and answered so far.
    pub fn history(&self) -> &History
        ensures { result.now ≡ self.now.1.history }
    {
        &self.session.history
    }

    /// Ends the session without a write. After a power cut the buffers that it gave up are taken back; transfers that
    /// are still out stay with the shelf, with their buffers.
    pub fn close(self) -> Closed<S>
        ensures shelf { S.device result.shelf ≡ record (S.device self.0) { freed = [] } }
        ensures history { result.history ≡ self.1.history }
        // Where no request waited, each that the history tells of has landed.
        ensures landed { list_any is_waiting self.1.requests ≡ false → (id : ℕ) → is_open result.history.facts id ≡ false }
    {
        let Driver { shelf, session, .. } = self;
        let Session {
            descriptor,
            history,
            requests,
            queue,
            copy,
            pool,
            updater,
            cache,
            ..
        } = session;
        // What is large goes by a call each: let go at the end of the scope, its parts are proved one by one here.
        drop(updater);
        drop(cache);
        drop(descriptor);
        drop(requests);
        drop(queue);
        drop(copy);
        drop(pool);
        Closed {
            shelf: without_freed(shelf),
            history,
        }
    }
}

// What is wanted, and what is in flight, is a status that a record can have.
fn statuses_are_valid(session: &Session)
    ensures { AreValid session.now.updater }
{
    let _ = session.updater.wanted().as_status();
    if let Some(table) = session.updater.in_flight() {
        let _ = table.as_status();
    }
}
