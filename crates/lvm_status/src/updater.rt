//! The updater.
ghost use Rattle.std.specs.Prelude.{All, ◌≡◌, ◌≢◌, ◌↔◌, ◌<◌, ◌+◌, ◌^◌, None, [], ◌||◌, IsTrue, IfOk, if◌then◌else◌};
ghost use Rattle.std.specs.List.{list_any};
ghost use Rattle.std.specs.Option.{option_copied};
ghost use Rattle.lvm_status.specs.passed.Num.{PvRow, IsValid, IsLaidOut, partitions_in, total_votes, has, IsLowest};
ghost use Rattle.lvm_status.specs.Marking.{IsLeftIn, MarksLost, HasMark};
ghost use Rattle.lvm_status.specs.Members.{HasItsRows, all_rows, all_members};
ghost use Rattle.lvm_status.specs.Rerowed.{IsRerowed};
ghost use Rattle.lvm_status.specs.Update.{members_there};

use crate::below::{
    Descriptor, DiskSet, LvRow, Memory, Pp, Rows, Stamp, Status, has_member, with_volumes,
};
use crate::mark::mark_volumes;
use crate::table::StaleTable;
use crate::tables::Tables;
use crate::{Change, Progress, Writes};
use std::alloc::Global;
use std::marker::Model;

/// The status of a session: the committed table, the wanted one, and at most one update in flight, which
/// goes to all members that aren't missing. A member is missing once a record write on it has failed, be
/// it one of a status, of which `ended` tells, or another, of which `want` does. It stays missing for the
/// session. All memory is taken by `new`.
#[derive(Drop)]
pub struct Updater {
    group: Descriptor,
    committed: StaleTable,
    wanted: StaleTable,
    // what is in flight, where something is
    flying: StaleTable,
    is_flying: bool,
    writes: Writes,
    stamp: Stamp,
    // whether it is known that what is wanted is committed
    is_known: bool,
}

impl Model for Updater {
    ghost use Rattle.std.specs.Prelude.{Some, None, if◌then◌else◌};
    ghost use Rattle.lvm_status.specs.Update.{Stored};
    ghost use Rattle.lvm_status.specs.Members.{IsFit};

    ghost Value = { Stored };

    ghost view = { λ u. record {
      group = u.group;
      committed = u.committed;
      wanted = u.wanted;
      in_flight = if u.is_flying then Some u.flying else None;
      writes = u.writes;
      stamp = u.stamp;
    } };

    ghost invariant = { λ u. IsFit u.group u.committed u.wanted u.flying u.writes u.is_known };
}

impl Updater {
    ghost use Rattle.lvm_status.specs.Update.{seen, is_there, is_held, is_owed, is_settled_stale, votes_there, MayStartUpdate};
    ghost use Rattle.lvm_status.specs.Calls.{first_updates, Changes, MayChange, with_wanted, with_update, with_start, with_end, WantsAtEnd, with_commit, closed, comes_held, after_end, given_up};
    ghost use Rattle.lvm_status.specs.Progress.{progress_of};

    /// The updater of a session that begins with this table.
    pub fn new(alloc: Global, table: StaleTable, d: &Descriptor) -> Result<Updater, Memory>
        requires valid { IsValid d.now }
        requires rows { HasItsRows d.now table }
        ensures { IfOk result (λ updater. seen updater ≡ first_updates table d.now) }
    {
        let (group, committed, flying) = first_parts(alloc, &table, d)?;
        Ok(Updater {
            group,
            committed,
            wanted: table,
            flying,
            is_flying: false,
            writes: Writes::none(),
            stamp: Stamp { epoch: 0, seq: 0 },
            is_known: true,
        })
    }

    /// The tables of a group to which this one may turn, in whose rows they say what is wanted. It takes all the
    /// memory that `fill` and `install` need.
    pub fn tables(&self, alloc: Global, d: &Descriptor) -> Result<Tables, Memory>
        requires { IsValid d.now }
        ensures group { IfOk result (λ tables. tables.group ≡ record d.now { lvs = [] }) }
        ensures told { IfOk result (λ tables. IsRerowed d.now self.now.wanted tables.told) }
    {
        let told = self.wanted.with_rows(alloc, d)?;
        let (group, committed, flying) = first_parts(alloc, &told, d)?;
        Ok(Tables {
            group,
            told,
            committed,
            flying,
        })
    }

    /// In their own rows the tables say what is wanted by now.
    pub fn fill(&self, tables: &mut Tables)
        ensures told { IsRerowed tables.old.group self.now.wanted tables.new.told }
        ensures group { tables.new.group ≡ tables.old.group }
    {
        tables.told.copy_rows(&self.wanted);
    }

    /// The group has turned to its next descriptor: that one's members, and what is committed and wanted is what
    /// the tables say. The stamp stays.
    pub fn install(&mut self, tables: Tables)
        requires { self.old.in_flight ≡ None }
        ensures { seen self.new ≡ record (first_updates tables.told tables.group) { stamp = self.old.stamp } }
    {
        let mut committed = tables.committed;
        committed.copy_from(&tables.told);
        self.group = tables.group;
        self.committed = committed;
        self.wanted = tables.told;
        self.flying = tables.flying;
        self.is_flying = false;
        self.writes = Writes::none();
        self.is_known = true;
    }

    /// Whether a table has a row for exactly the members of a group.
    pub fn has_its_rows(d: &Descriptor, table: &StaleTable) -> bool
        ensures { IsTrue result ↔ HasItsRows d.now table.now }
    {
        all_have_rows(d, table) && all_are_members(table.as_status(), d)
    }

    /// Something is wanted from now on. A write of the update in flight that isn't started isn't made where
    /// its disk becomes missing; an update that is committed ends where that was its last write.
    pub fn want(&mut self, change: Change)
        requires { MayChange change self.old.wanted }
        ensures wanted { Changes change self.old.wanted self.new.wanted }
        ensures rest { seen self.new ≡ with_wanted (seen self.old) change self.new.wanted }
    {
        self.set_wanted(change);
        self.close();
    }

    /// The copies of these volumes that are left behind become wanted stale: those on disks that aren't members
    /// or are missing, where a copy of the same logical partition is fresh on a member that isn't missing.
    pub fn mark_left(&mut self, volumes: &[LvRow])
        requires laid_out { All IsLaidOut volumes.now }
        requires markable { All (HasMark self.old.wanted) (partitions_in volumes.now) }
        ensures wanted { MarksLost (is_there (seen self.old)) (IsLeftIn (is_there (seen self.old)) self.old.wanted volumes.now) self.old.wanted self.new.wanted }
        ensures rest { self.new ≡ record self.old { wanted = self.new.wanted } }
    {
        // The wanted table is a status that a record may state.
        let _ = self.wanted.as_status();
        let there = members_there(&self.group, &self.wanted);
        mark_volumes(&mut self.wanted, volumes, there);
        self.is_known = says_the_same(&self.wanted, &self.committed);
    }

    /// Puts what is wanted in flight, under the next stamp, where nothing is in flight and it isn't what is
    /// committed; else changes nothing.
    pub fn start(&mut self) -> bool
        requires { self.old.stamp.seq + 1 < 2 ^ 32 }
        ensures starts { IsTrue result ↔ MayStartUpdate (seen self.old) }
        ensures update { seen self.new ≡ (if result then with_update (seen self.old) else seen self.old) }
    {
        if self.is_flying || says_the_same(&self.wanted, &self.committed) {
            return false;
        }
        self.flying.copy_from(&self.wanted);
        self.is_flying = true;
        self.writes = Writes::to(members_there(&self.group, &self.wanted));
        self.stamp.seq += 1;
        true
    }

    /// The disk to which the update in flight is to be written next: the lowest member that isn't missing
    /// whose write isn't started. It counts as started from now on.
    pub fn next_write(&mut self) -> Option<u16>
        ensures lowest { IsLowest (has self.old.writes.unstarted) result }
        ensures starts { seen self.new ≡ with_start (seen self.old) result }
    {
        let disk = self.writes.unstarted.lowest()?;
        self.writes.unstarted = self.writes.unstarted.without(disk);
        self.writes.started = self.writes.started.with(disk);
        Some(disk)
    }

    /// The write to a disk has ended, well or badly. Where it has ended badly the disk is missing from now
    /// on. The update is committed once the disks that have it have votes enough to write, also while other
    /// writes are out; it is in flight until each of its writes has ended, and for good where it has ended
    /// without being committed, since a later session may find it.
    pub fn ended(&mut self, disk: u16, ok: bool) -> Progress
        requires { IsTrue (has self.old.writes.started disk) }
        ensures wanted { WantsAtEnd disk ok self.old.wanted self.new.wanted }
        ensures rest { seen self.new ≡ after_end (seen self.old) disk ok self.new.wanted }
        ensures progress { result ≡ progress_of self.old.group (votes_there (seen self.new)) (comes_held (seen self.old) (with_end (seen self.old) disk ok self.new.wanted)) }
    {
        let was_held = self.is_held();
        self.end_write(disk, ok);
        let commits = !was_held && self.is_held();
        if commits {
            self.commit();
        }
        self.close();
        self.progress(commits)
    }

    /// What is committed: the last status that disks with votes enough to write have.
    pub fn committed(&self) -> &StaleTable
        ensures { result.now ≡ self.now.committed }
    {
        &self.committed
    }

    /// What is wanted. It says of each disk at once whether it is missing.
    pub fn wanted(&self) -> &StaleTable
        ensures { result.now ≡ self.now.wanted }
    {
        &self.wanted
    }

    /// Whether something is wanted that isn't committed. No table is read where none has changed since the last commit.
    pub fn differs(&self) -> bool
        ensures { IsTrue result ↔ (self.now.wanted ≢ self.now.committed) }
    {
        if self.is_known {
            return false;
        }
        !says_the_same(&self.wanted, &self.committed)
    }

    /// What is in flight, to be written under the stamp.
    pub fn in_flight(&self) -> Option<&StaleTable>
        ensures { option_copied result ≡ self.now.in_flight }
    {
        if self.is_flying {
            Some(&self.flying)
        } else {
            None
        }
    }

    /// How far the writes of the update in flight are; without one there are none.
    pub fn writes(&self) -> Writes
        ensures { result ≡ self.now.writes }
    {
        self.writes
    }

    /// Whether the committed status and the one in flight, if any, both call a partition stale: only then
    /// does each later session find it stale.
    pub fn is_settled_stale(&self, pp: Pp) -> bool
        ensures { result ≡ is_settled_stale (seen self.now) pp }
    {
        self.committed.is_stale(pp) && (!self.is_flying || self.flying.is_stale(pp))
    }

    /// The votes of the members that aren't missing, and those of all.
    pub fn votes(&self) -> (u32, u32)
        ensures have { result.0 ≡ votes_there (seen self.now) }
        ensures total { result.1 ≡ total_votes self.now.group }
    {
        let there = members_there(&self.group, &self.wanted);
        (self.group.votes_in(there), self.group.total_votes())
    }

    /// The stamp that was used or set last, of zeros before there was one.
    pub fn stamp(&self) -> Stamp
        ensures { result ≡ self.now.stamp }
    {
        self.stamp
    }

    /// Counts a stamp as used, by a record that was written without this updater.
    pub fn set_stamp(&mut self, stamp: Stamp)
        requires { self.old.in_flight ≡ None }
        ensures { self.new ≡ record self.old { stamp = stamp } }
    {
        self.stamp = stamp;
    }

    // Makes the change, and gives up a write that isn't started to a disk that becomes missing.
    fn set_wanted(&mut self, change: Change)
        requires { MayChange change self.old.wanted }
        ensures wanted { Changes change self.old.wanted self.new.wanted }
        ensures rest { seen self.new ≡ record (seen self.old) { wanted = self.new.wanted; unstarted = given_up change (has self.old.writes.unstarted) } }
    {
        self.is_known = false;
        match change {
            Change::Stale(pp) => self.wanted.mark(pp),
            Change::Fresh(pp) => self.wanted.clear(pp),
            Change::Missing(disk) => {
                self.wanted.set_missing(disk, true);
                self.writes.unstarted = self.writes.unstarted.without(disk);
            }
            Change::Dirty(lv) => self.wanted.set_dirty(lv, true),
            Change::Clean(lv) => self.wanted.set_dirty(lv, false),
        }
    }

    // The write to a disk has ended.
    fn end_write(&mut self, disk: u16, ok: bool)
        requires { IsTrue (has self.old.writes.started disk) }
        ensures wanted { WantsAtEnd disk ok self.old.wanted self.new.wanted }
        ensures rest { seen self.new ≡ with_end (seen self.old) disk ok self.new.wanted }
    {
        self.writes.started = self.writes.started.without(disk);
        if ok {
            self.writes.written = self.writes.written.with(disk);
        } else {
            self.writes.failed = self.writes.failed.with(disk);
            self.is_known = false;
            self.wanted.set_missing(disk, true);
        }
    }

    // Whether the disks that have the update have votes enough to write.
    fn is_held(&self) -> bool
        ensures { result ≡ is_held (seen self.now) }
    {
        let written = self.group.votes_in(self.writes.written);
        self.group.enough_to_write(written)
    }

    // Whether a write is to be started or to end.
    fn is_owed(&self) -> bool
        ensures { result ≡ is_owed (seen self.now) }
    {
        is_any_owed(&self.group, self.writes)
    }

    // What is in flight is committed.
    fn commit(&mut self)
        ensures { seen self.new ≡ with_commit (seen self.old) }
    {
        if self.is_flying {
            self.committed.copy_from(&self.flying);
            self.is_known = says_the_same(&self.wanted, &self.committed);
        }
    }

    // The update ends where it is committed and no write is owed.
    fn close(&mut self)
        ensures { seen self.new ≡ closed (seen self.old) }
    {
        if self.is_held() && !self.is_owed() {
            self.is_flying = false;
            self.writes = Writes::none();
        }
    }

    fn progress(&self, commits: bool) -> Progress
        ensures { result ≡ progress_of self.now.group (votes_there (seen self.now)) commits }
    {
        let (have, total) = self.votes();
        if !self.group.enough_to_write(have) {
            Progress::QuorumLost { have, total }
        } else if commits {
            Progress::Committed
        } else {
            Progress::Waiting
        }
    }
}

fn says_the_same(a: &StaleTable, b: &StaleTable) -> bool
    ensures { IsTrue result ↔ (a.now ≡ b.now) }
{
    a.as_status() == b.as_status()
}

// Whether each member has a row.
fn all_have_rows(d: &Descriptor, table: &StaleTable) -> bool
    ensures { result ≡ all_rows d.now table.now }
{
    for member in d.pvs.as_slice() {
        if !table.has_row(member.disk) {
            return false;
        }
    }
    true
}

// Whether each row is that of a member.
fn all_are_members(s: &Status, d: &Descriptor) -> bool
    ensures { result ≡ all_members d.now s.now }
{
    for row in s.rows.as_slice() {
        if !has_member(d.pvs.as_slice(), row.disk) {
            return false;
        }
    }
    true
}

// The members of a group, and two tables that say what this one does.
fn first_parts(
    alloc: Global,
    table: &StaleTable,
    d: &Descriptor,
) -> Result<(Descriptor, StaleTable, StaleTable), Memory>
    ensures group { IfOk result (λ parts. parts.0 ≡ record d.now { lvs = [] }) }
    ensures first { IfOk result (λ parts. parts.1 ≡ table.now) }
    ensures second { IfOk result (λ parts. parts.2 ≡ table.now) }
{
    let group = without_volumes(alloc, d)?;
    let (first, second) = two_of(alloc, table)?;
    Ok((group, first, second))
}

// Two tables that say what this one does.
fn two_of(alloc: Global, table: &StaleTable) -> Result<(StaleTable, StaleTable), Memory>
    ensures first { IfOk result (λ tables. tables.0 ≡ table.now) }
    ensures second { IfOk result (λ tables. tables.1 ≡ table.now) }
{
    let first = StaleTable::from_status(alloc, table.as_status())?;
    let second = StaleTable::from_status(alloc, table.as_status())?;
    Ok((first, second))
}

// The group with its members alone.
fn without_volumes(alloc: Global, d: &Descriptor) -> Result<Descriptor, Memory>
    ensures { IfOk result (λ group. group ≡ record d.now { lvs = [] }) }
{
    with_volumes(alloc, d, Rows::empty(alloc))
}

/// The members that a table doesn't call missing.
pub fn members_there(d: &Descriptor, table: &StaleTable) -> DiskSet
    requires { IsValid d.now }
    ensures { has result ≡ members_there d.now table.now }
{
    let mut there = DiskSet::empty();
    for row in d.pvs.as_slice() {
        if !table.is_missing(row.disk) {
            there = there.with(row.disk);
        }
    }
    there
}

// Whether a write to a member is to be started or to end.
fn is_any_owed(d: &Descriptor, writes: Writes) -> bool
    requires { IsValid d.now }
    ensures { result ≡ list_any (λ (row : PvRow). has writes.unstarted row.disk || has writes.started row.disk) d.now.pvs }
{
    for row in d.pvs.as_slice() {
        if writes.unstarted.has(row.disk) || writes.started.has(row.disk) {
            return true;
        }
    }
    false
}
