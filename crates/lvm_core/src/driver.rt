//! A session over its shelf.
ghost use Rattle.std.specs.Prelude.{◌≡◌, ◌==◌, ◌≤◌, ◌<◌, ◌+◌, ◌-◌, ◌++◌, ◌^◌, [], length, slice_get, false, Some, IfSome, IfNone, IfOk, IsOk, IsTrue, All};
ghost use Rattle.lvm_num.specs.Descriptor.{IsValid, IsPartitionOf};
ghost use Rattle.lvm_num.specs.Status.{IsVolumeNumber};
ghost use Rattle.lvm_num.specs.Votes.{total_votes};
ghost use Rattle.lvm_vol.specs.Log.{spare_entries, with_fact, plain_fact};
ghost use Rattle.lvm_disk.specs.Device.{IsReady};
ghost use Rattle.lvm_disk.specs.Steps.{MayArrange, ArrangeGives};
ghost use Rattle.lvm_write.specs.Written.{KeepsShelf};
ghost use Rattle.lvm_commit.specs.Committed.{IsAlike};
ghost use Rattle.lvm_commit.specs.LawsOfData.{IsFree};
ghost use Rattle.lvm_commit.specs.Settling.{HoldsWithin, MarksLeft};
ghost use Rattle.lvm_session.specs.declared.open.Open.{Open};
ghost use Rattle.lvm_session.specs.Fields.{core_of};
ghost use Rattle.lvm_session.specs.Rooms.{HasRooms};
ghost use Rattle.lvm_session.specs.State.{state, is_there, votes_there};
ghost use Rattle.lvm_session.specs.Judging.{is_waiting};
ghost use Rattle.lvm_session.specs.Dark.{after_arrange};
ghost use Rattle.lvm_session.specs.Placed.{ArePlaced};
ghost use Rattle.lvm_session.specs.declared.open.Power.TheVariants as power;
ghost use Rattle.lvm_core.specs.State.{state_of};
ghost use Rattle.lvm_core.specs.Looking.{IsNumberOf, HasNoVolumeNamed};
ghost use Rattle.lvm_core.specs.Sound.{IsSoundAtRest, HaveAllLanded};
ghost use Rattle.lvm_session_start.specs.Beginning.{AreFaults, first_core};
ghost use Rattle.lvm_core.specs.Settled.{IsSettled, HasSpareNumbers};
ghost use Rattle.lvm_core.specs.Committing.{CommitEnds, MarkEnds, FailsCommitted, AreUnused, AreMarked, Restates, AreDirtied, Redirties};
ghost use Rattle.lvm_core.specs.Zeros.{ZeroEnds, KeepsRecords, IsZeroOf};
ghost use Rattle.lvm_core.specs.Leaves.{Leaves, committing, marking, dirtying, zeroing};
ghost use Rattle.lvm_core.specs.Entering.{IsEntryOfCommand, last_reads};

use crate::commit::{commit, mark_dirty, set_status, zero};
use crate::fault::CommitFault;
use crate::look::number_of;
use crate::parts::Parts;
use crate::prepared::Prepared;
use lvm_commit::below::Patience;
use lvm_disk::{Arrange, Shelf};
use lvm_num::{Descriptor, Memory, Name, Pp, Stamp};
use lvm_rec::Homes;
use lvm_session::{Power, Session, arranged};
use lvm_session_start::below::History;
use lvm_status::StaleTable;
use lvm_vol::Entry;
use std::alloc::Global;
use std::marker::Model;

/// A group that is varied on, over its shelf. Contracts see the shelf and what the session is about.
/// No call of it but `prepare` takes memory.
#[derive(Drop)]
pub struct CommandDriver<S: Shelf> {
    shelf: S,
    session: Session,
}

impl<S: Shelf> Model for CommandDriver<S> {
    ghost use Rattle.lvm_session.specs.State.{Core, state};
    ghost use Rattle.lvm_session.specs.Fields.{core_of};
    ghost use Rattle.lvm_session.specs.Rooms.{HasRooms};
    ghost use Rattle.lvm_core.specs.Sound.{IsSoundAtRest};

    ghost Value = { S × Core };

    ghost view = { λ d. (d.shelf, core_of d.session) };

    ghost invariant = { λ d. HasRooms d.session × IsSoundAtRest (state (S.device d.shelf) (core_of d.session)) };
}

impl<S: Shelf> CommandDriver<S> {
    /// Varies the group on: enters On with the epoch of the stamp, which is that of the last record
    /// that was written; `homes` are the slots to which the next ones go.
    pub fn start(
        parts: Parts,
        shelf: S,
        history: History,
        stamp: Stamp,
        homes: Homes,
    ) -> CommandDriver<S>
        requires spare { 1 ≤ spare_entries history }
        requires landed { HaveAllLanded history.facts }
        requires ready { IsReady (S.device shelf) }
        requires placed { ArePlaced (S.device shelf).sizes parts.descriptor parts.updater.wanted }
        ensures shelf { result.0 ≡ shelf }
        ensures core { result.1 ≡ first_core parts history stamp homes result.1.origin.faults }
        ensures faults { AreFaults (S.device shelf) result.1.origin.faults }
    {
        let session = parts.into_session(&shelf, history, stamp, homes);
        CommandDriver { shelf, session }
    }

    /// The session of another driver at which nothing is under way, over its shelf.
    pub fn from_parts(shelf: S, session: Session) -> CommandDriver<S>
        requires rooms { HasRooms session }
        requires sound { IsSoundAtRest (state (S.device shelf) (core_of session)) }
        ensures shelf { result.0 ≡ shelf }
        ensures core { result.1 ≡ core_of session }
    {
        CommandDriver { shelf, session }
    }

    /// Its shelf and its session, for another driver.
    pub fn into_parts(self) -> (S, Session)
        ensures shelf { result.0 ≡ self.0 }
        ensures core { core_of result.1 ≡ self.1 }
        ensures rooms { HasRooms result.1 }
        ensures sound { IsSoundAtRest (state (S.device self.0) self.1) }
    {
        (self.shelf, self.session)
    }

    /// How many disks its shelf has.
    pub fn disks(&self) -> u16
        ensures number { result ≡ length (S.device self.now.0).sizes }
        ensures some { (1 ≤ result) × (result ≤ 128) }
    {
        self.shelf.disks()
    }

    /// How many sectors a disk of its shelf has.
    pub fn sectors(&self, disk: u16) -> u64
        requires { disk < length (S.device self.now.0).sizes }
        ensures { slice_get (S.device self.now.0).sizes disk ≡ Some result }
    {
        self.shelf.sectors(disk)
    }

    /// Arranges a fault or a power cut on its shelf, where that takes such orders. A power cut ends the
    /// session: it is entered, all open requests that haven't landed land as Dark, and an open copy has
    /// ended.
    pub fn arrange(&mut self, what: Arrange) -> bool
        requires { MayArrange (S.device self.old.0) what }
        ensures shelf { ArrangeGives (S.device self.old.0) (S.device self.new.0) what result }
        ensures core { self.new.1 ≡ after_arrange what result self.old.1 }
    {
        let done = self.shelf.arrange(what);
        arranged(&mut self.session, what, done);
        done
    }

    /// Whether the session goes on.
    pub fn power(&self) -> Power
        ensures power { result ≡ self.now.1.power }
        // A transfer that isn't heard of leaves the session on, and its buffer out.
        ensures heard { result ≡ power.Stuck → ⊥ }
    {
        self.session.power
    }

    /// Takes the memory by which the next descriptor is committed, and changes nothing.
    pub fn prepare(&self, alloc: Global, next: Descriptor) -> Result<Prepared, Memory>
        requires valid { IsValid next }
        requires id { next.id ≡ self.now.1.descriptor.id }
        ensures { IfOk result (λ prepared. prepared ≡ next) }
    {
        Prepared::new(alloc, next)
    }

    /// Writes a descriptor, which differs from the present one in its volumes alone, to all members that
    /// aren't missing. A member whose write fails becomes missing, and the status says so before the call
    /// answers, and calls the copies stale that it leaves behind. The buffer that it writes with comes from the pool and goes back.
    ///
    /// # Errors
    ///
    /// `WentOff` where the members that aren't missing have too few votes to write; the session is off then.
    /// `Dark`, and the session has ended; a cut is entered. `Stuck`, and the transfer is out with the buffer:
    /// nothing can be committed any more, only looked at, and the session closed.
    pub fn commit(&mut self, next: Prepared, patience: &mut Patience) -> Result<(), CommitFault>
        requires settled { IsSettled self.old.1 }
        requires numbers { HasSpareNumbers self.old.1 }
        requires alike { IsAlike next self.old.1.descriptor }
        ensures ends { CommitEnds next patience.old.left (state_of S.device self.old) (state_of S.device self.new) result }
        ensures fails { FailsCommitted (state_of S.device self.old) (state_of S.device self.new) result }
        // whatever the answer
        ensures left { MarksLeft next self.old.1.status self.new.1.status }
        ensures held { HoldsWithin self.old.1.status self.new.1.status }
        ensures leaves { Leaves (committing next) patience.old.left patience.new.left (state_of S.device self.old) (state_of S.device self.new) }
    {
        commit(&mut self.session, &mut self.shelf, next, patience)
    }

    /// Commits a status with these partitions stale and those fresh, which no volume has. Where nothing
    /// changes by it, nothing is written. A member whose write fails becomes missing, and the status says so
    /// before the call answers, and calls the copies stale that it leaves behind.
    ///
    /// # Errors
    ///
    /// As of `commit`.
    pub fn set_status(
        &mut self,
        stale: &[Pp],
        fresh: &[Pp],
        patience: &mut Patience,
    ) -> Result<(), CommitFault>
        requires settled { IsSettled self.old.1 }
        requires numbers { HasSpareNumbers self.old.1 }
        requires unused { AreUnused self.old.1.descriptor (stale.now ++ fresh.now) }
        ensures ends { MarkEnds patience.old.left (state_of S.device self.old) (state_of S.device self.new) result }
        ensures fails { FailsCommitted (state_of S.device self.old) (state_of S.device self.new) result }
        ensures nothing { AreMarked stale.now fresh.now self.old.1.status.committed → IsOk result × (S.device self.new.0 ≡ S.device self.old.0) × (self.new.1 ≡ self.old.1) }
        // whatever the answer
        ensures marks { Restates stale.now fresh.now (state_of S.device self.old) (state_of S.device self.new) }
        ensures held { HoldsWithin self.old.1.status self.new.1.status }
        ensures leaves { Leaves (marking stale.now fresh.now) patience.old.left patience.new.left (state_of S.device self.old) (state_of S.device self.new) }
    {
        set_status(&mut self.session, &mut self.shelf, stale, fresh, patience)
    }

    /// Commits a status with these volumes dirty and those not. Where nothing changes by it, nothing is written.
    /// A member whose write fails becomes missing, and the status says so before the call answers, and calls the
    /// copies stale that it leaves behind.
    ///
    /// # Errors
    ///
    /// As of `commit`.
    pub fn mark_dirty(
        &mut self,
        dirty: &[u16],
        clean: &[u16],
        patience: &mut Patience,
    ) -> Result<(), CommitFault>
        requires settled { IsSettled self.old.1 }
        requires numbers { HasSpareNumbers self.old.1 }
        requires volumes { All IsVolumeNumber (dirty.now ++ clean.now) }
        ensures ends { MarkEnds patience.old.left (state_of S.device self.old) (state_of S.device self.new) result }
        ensures fails { FailsCommitted (state_of S.device self.old) (state_of S.device self.new) result }
        ensures nothing { AreDirtied dirty.now clean.now self.old.1.status.committed → IsOk result × (S.device self.new.0 ≡ S.device self.old.0) × (self.new.1 ≡ self.old.1) }
        // whatever the answer
        ensures marks { Redirties dirty.now clean.now (state_of S.device self.old) (state_of S.device self.new) }
        ensures held { HoldsWithin self.old.1.status self.new.1.status }
        ensures leaves { Leaves (dirtying dirty.now clean.now) patience.old.left patience.new.left (state_of S.device self.old) (state_of S.device self.new) }
    {
        mark_dirty(&mut self.session, &mut self.shelf, dirty, clean, patience)
    }

    /// Writes zeros to a partition that no volume has, of a member that isn't missing.
    ///
    /// # Errors
    ///
    /// `DiskFailed` at its first transfer that failed; the disk doesn't become missing by it. `Dark` and
    /// `Stuck` as of `commit`.
    pub fn zero(&mut self, pp: Pp, patience: &mut Patience) -> Result<(), CommitFault>
        requires settled { IsSettled self.old.1 }
        requires there { IsTrue (is_there self.old.1 pp.disk) }
        requires partition { IsPartitionOf self.old.1.descriptor pp }
        requires free { IsFree self.old.1.descriptor pp }
        ensures ends { ZeroEnds pp patience.old.left (state_of S.device self.old) (state_of S.device self.new) result }
        // whatever the answer
        ensures records { KeepsRecords (state_of S.device self.old) (state_of S.device self.new) }
        ensures writes { KeepsShelf (λ d. d == pp.disk) (IsZeroOf self.old.1.descriptor.mib pp) (S.device self.old.0) (S.device self.new.0) }
        ensures leaves { Leaves (zeroing pp) patience.old.left patience.new.left (state_of S.device self.old) (state_of S.device self.new) }
    {
        zero(&mut self.session, &mut self.shelf, pp, patience)
    }

    /// Enters that a volume is being made or removed, or that it is, or that a disk is a raw one no more. The first
    /// read of a volume that is made begins as if its number were new.
    pub fn enter(&mut self, entry: Entry)
        requires spare { 1 ≤ spare_entries self.old.1.history }
        requires command { IsEntryOfCommand entry }
        ensures shelf { self.new.0 ≡ self.old.0 }
        ensures core { self.new.1 ≡ record self.old.1 { history = with_fact self.old.1.history (plain_fact entry); last = last_reads (plain_fact entry) self.old.1.last } }
    {
        forget_reads(&mut self.session.last, &entry);
        self.session.history.push(entry);
    }

    /// How many sequence numbers are left for the stamps of this session's records.
    pub fn numbers_left(&self) -> u32
        ensures { result + self.now.1.status.stamp.seq + 1 ≡ 2 ^ 32 }
    {
        u32::MAX - self.session.updater.stamp().seq
    }

    /// The number of the volume of a name.
    pub fn volume(&self, name: Name) -> Option<u16>
        ensures some { IfSome result (IsNumberOf self.now.1.descriptor.lvs name) }
        ensures none { IfNone result (HasNoVolumeNamed self.now.1.descriptor.lvs name) }
    {
        number_of(&self.session.descriptor, name)
    }

    /// The descriptor of the last command that was answered with Ok. After another answer of `commit` the next
    /// one may stand on some members, and be found when the group is varied on again.
    pub fn descriptor(&self) -> &Descriptor
        ensures same { result.now ≡ self.now.1.descriptor }
        ensures valid { IsValid result.now }
    {
        &self.session.descriptor
    }

    /// The committed status.
    pub fn table(&self) -> &StaleTable
        ensures { result.now ≡ self.now.1.status.committed }
    {
        self.session.updater.committed()
    }

    /// How many requests are open: submitted, and their answers not taken.
    pub fn open(&self) -> u32
        ensures number { result ≡ length self.now.1.requests }
        // What holds of the session at every moment.
        ensures sound { IsSoundAtRest (state (S.device self.now.0) self.now.1) }
    {
        self.session.requests.len() as u32
    }

    /// The votes of the members that aren't missing, and those of all. A disk is missing from the moment
    /// on at which a write of a record to it has failed.
    pub fn votes(&self) -> (u32, u32)
        ensures have { result.0 ≡ votes_there self.now.1 }
        ensures total { result.1 ≡ total_votes self.now.1.descriptor }
    {
        self.session.updater.votes()
    }

    /// What was asked and answered so far.
    pub fn history(&self) -> &History
        ensures { result.now ≡ self.now.1.history }
    {
        &self.session.history
    }

    /// Ends the session without a write. After a power cut the buffers that it gave up are taken back; a
    /// transfer that is still under way stays with the shelf, with its buffer.
    pub fn close(self) -> Closed<S>
        ensures shelf { S.device result.shelf ≡ record (S.device self.0) { freed = [] } }
        ensures history { result.history ≡ self.1.history }
        // Where no request waited, each that the history tells of has landed.
        ensures landed { All (λ (o : Open). is_waiting o ≡ false) self.1.requests → HaveAllLanded result.history.facts }
    {
        let CommandDriver { shelf, session } = self;
        Closed {
            shelf: without_freed(shelf),
            history: session.history,
        }
    }
}

// A volume that is made hasn't been read.
fn forget_reads(last: &mut [u8; 512], entry: &Entry)
    ensures { last.new ≡ last_reads (plain_fact entry.now) last.old }
{
    if let Entry::Made { lv } = entry {
        if *lv < 512 {
            last[usize::from(*lv)] = 0;
        }
    }
}

/// Takes back the buffers that a power cut made the shelf give up.
pub fn without_freed<S: Shelf>(shelf: S) -> S
    ensures { S.device result ≡ record (S.device shelf) { freed = [] } }
{
    let mut shelf = shelf;
    while let Some(_) = shelf.next_freed() {}
    shelf
}

/// What is left of a session.
#[derive(Drop)]
pub struct Closed<S> {
    pub shelf: S,
    pub history: History,
}
