//! The stale table.
ghost use Rattle.std.specs.Prelude.{◌≡◌, ℕ, ◌<◌, ◌≤◌, ◌&&◌, ◌||◌, ◌==◌, not, if◌then◌else◌, length, IsTrue, IfOk, count_by, position};
ghost use Rattle.std.specs.List.{list_any};
ghost use Rattle.lvm_num.specs.declared.place.Pp.{Pp};
ghost use Rattle.lvm_num.specs.declared.status.StatusRow.{StatusRow};
ghost use Rattle.lvm_num.specs.Bits.{has_bit};
ghost use Rattle.lvm_num.specs.Descriptor.{IsValid, is_pp};
ghost use Rattle.lvm_num.specs.Status.{calls_stale, calls_missing, calls_dirty, IsValidStatus, AreDirty, IsVolumeNumber};
ghost use Rattle.lvm_num.specs.declared.descriptor.Descriptor.{Descriptor};
ghost use Rattle.lvm_status.specs.Rerowed.{HasRowsOf, IsRerowed};
ghost use Rattle.lvm_status.specs.Rows.{IsRowAt, SetsAmong, with_row_at};
ghost use Rattle.lvm_status.specs.Table.{has_row, SameMembers, SameStale, SameMissing, stale_count};

use crate::rows::{become_rows, rows_for};
use lvm_num::{
    Descriptor, Memory, Pp, Status, StatusRow, VolumeNumbers, clear_bit, clone_status, has_bit,
    set_bit, volume_among,
};
use std::alloc::Global;
use std::marker::Model;

/// A status that changes in place: a set of stale partitions, a set of missing disks and a set of
/// dirty volumes, over the rows that it was made with. Contracts see it as that status, which is one
/// that a record may state.
#[derive(Drop)]
pub struct StaleTable {
    status: Status,
}

impl Model for StaleTable {
    ghost use Rattle.lvm_num.specs.declared.status.Status.{Status};
    ghost use Rattle.lvm_num.specs.Status.{IsValidStatus};

    ghost Value = { Status };

    ghost view = { λ t. t.status };

    ghost invariant = { λ t. IsValidStatus t.status };
}

impl StaleTable {
    /// The table of a status. It takes all the memory that it ever needs, for 511 dirty volumes too.
    pub fn from_status(alloc: Global, s: &Status) -> Result<StaleTable, Memory>
        requires { IsValidStatus s.now }
        ensures { IfOk result (λ table. table ≡ s.now) }
    {
        let status = clone_status(alloc, s)?;
        Ok(StaleTable { status })
    }

    /// The status that it is, as a value of its own.
    pub fn status(&self, alloc: Global) -> Result<Status, Memory>
        ensures same { IfOk result (λ status. status ≡ self.now) }
        ensures valid { IfOk result IsValidStatus }
    {
        clone_status(alloc, &self.status)
    }

    /// The status that it is, without memory.
    pub fn as_status(&self) -> &Status
        ensures same { result.now ≡ self.now }
        ensures valid { IsValidStatus result.now }
    {
        &self.status
    }

    /// Whether a partition is stale. One of a disk without a row isn't.
    pub fn is_stale(&self, pp: Pp) -> bool
        ensures { result ≡ calls_stale self.now pp }
    {
        self.status
            .rows
            .as_slice()
            .iter()
            .any(|row| row.disk == pp.disk && is_marked(row, pp.pp))
    }

    /// Whether a disk is missing. One without a row isn't.
    pub fn is_missing(&self, disk: u16) -> bool
        ensures { result ≡ calls_missing self.now disk }
    {
        self.status
            .rows
            .as_slice()
            .iter()
            .any(|row| row.disk == disk && row.missing)
    }

    /// Whether the volume of a number may differ after a crash.
    pub fn is_dirty(&self, lv: u16) -> bool
        ensures { result ≡ calls_dirty self.now lv }
    {
        self.status
            .dirty
            .as_slice()
            .iter()
            .any(|number| *number == lv)
    }

    /// Whether a disk has a row.
    pub fn has_row(&self, disk: u16) -> bool
        ensures { result ≡ has_row self.now disk }
    {
        self.status
            .rows
            .as_slice()
            .iter()
            .any(|row| row.disk == disk)
    }

    /// A partition becomes stale.
    pub fn mark(&mut self, pp: Pp)
        requires row { IsTrue (has_row self.old pp.disk) }
        requires partition { pp.pp < 1016 }
        ensures members { SameMembers self.old self.new }
        ensures stale { (p : Pp) → calls_stale self.new p ≡ (calls_stale self.old p || is_pp p pp) }
        ensures missing { SameMissing self.old self.new }
        ensures dirty { self.new.dirty ≡ self.old.dirty }
    {
        let (place, mut row) = self.row_of(pp.disk);
        set_bit(&mut row.stale, usize::from(pp.pp));
        self.put(place, row);
    }

    /// A partition becomes fresh.
    pub fn clear(&mut self, pp: Pp)
        requires row { IsTrue (has_row self.old pp.disk) }
        requires partition { pp.pp < 1016 }
        ensures members { SameMembers self.old self.new }
        ensures stale { (p : Pp) → calls_stale self.new p ≡ (calls_stale self.old p && not (is_pp p pp)) }
        ensures missing { SameMissing self.old self.new }
        ensures dirty { self.new.dirty ≡ self.old.dirty }
    {
        let (place, mut row) = self.row_of(pp.disk);
        clear_bit(&mut row.stale, usize::from(pp.pp));
        self.put(place, row);
    }

    /// A disk becomes missing, or is there again.
    pub fn set_missing(&mut self, disk: u16, yes: bool)
        requires { IsTrue (has_row self.old disk) }
        ensures members { SameMembers self.old self.new }
        ensures stale { SameStale self.old self.new }
        ensures missing { (d : ℕ) → calls_missing self.new d ≡ (if d == disk then yes else calls_missing self.old d) }
        ensures dirty { self.new.dirty ≡ self.old.dirty }
        ensures same { calls_missing self.old disk ≡ yes → self.new ≡ self.old }
    {
        let (place, mut row) = self.row_of(disk);
        row.missing = yes;
        self.put(place, row);
    }

    /// A volume may differ after a crash, or may not any more.
    pub fn set_dirty(&mut self, lv: u16, yes: bool)
        requires least { 1 ≤ lv }
        requires most { lv ≤ 511 }
        ensures members { SameMembers self.old self.new }
        ensures stale { SameStale self.old self.new }
        ensures missing { SameMissing self.old self.new }
        ensures dirty { (number : ℕ) → calls_dirty self.new number ≡ (if number == lv then yes else calls_dirty self.old number) }
    {
        set_among(&mut self.status.dirty, lv, yes);
    }

    /// How many partitions of a volume are stale, over all its copies; 0 without that volume.
    pub fn stale_of(&self, d: &Descriptor, lv: u16) -> u32
        requires { IsValid d.now }
        ensures { result ≡ stale_count self.now d.now lv }
    {
        match volume_among(d.lvs.as_slice(), lv) {
            None => 0,
            Some(row) => self.stale_among(row.map.as_slice()),
        }
    }

    /// Becomes the same as a table with as many rows, without memory.
    pub fn copy_from(&mut self, from: &StaleTable)
        requires { length from.now.rows ≡ length self.old.rows }
        ensures { self.new ≡ from.now }
    {
        let from = &from.status;
        self.status.id = from.id;
        self.status.big = from.big;
        self.status.dirty.copy_from(from.dirty.as_slice());
        self.status.rows.copy_from(from.rows.as_slice());
    }

    /// What the table says, over the rows of the members of a group: of a member that has no row nothing is
    /// missing or stale, and what is said of a disk that is no member isn't taken over.
    pub fn with_rows(&self, alloc: Global, d: &Descriptor) -> Result<StaleTable, Memory>
        requires { IsValid d.now }
        ensures { IfOk result (λ table. IsRerowed d.now self.now table) }
    {
        let rows = rows_for(alloc, d, &self.status)?;
        let dirty = VolumeNumbers::new(alloc, self.status.dirty.as_slice())?;
        Ok(StaleTable {
            status: Status {
                id: self.status.id,
                big: d.big,
                dirty,
                rows,
            },
        })
    }

    /// Says what another table says, over its own rows, without memory.
    pub fn copy_rows(&mut self, from: &StaleTable)
        ensures rows { (d : Descriptor) → HasRowsOf d self.old → IsRerowed d from.now self.new }
        ensures many { length self.new.rows ≡ length self.old.rows }
    {
        let from = &from.status;
        self.status.id = from.id;
        self.status.dirty.copy_from(from.dirty.as_slice());
        become_rows(&mut self.status.rows, from);
    }

    // The row of a disk, and its place.
    fn row_of(&self, disk: u16) -> (usize, StatusRow)
        requires { IsTrue (has_row self.now disk) }
        ensures at { IsRowAt self.now.rows disk result.0 result.1 }
        ensures valid { IsValidStatus self.now }
    {
        row_at(self.status.rows.as_slice(), disk)
    }

    // Another row of the disk whose row stands at this place stands there then.
    fn put(&mut self, place: usize, row: StatusRow)
        requires { (was : StatusRow) × IsRowAt self.old.rows row.disk place was }
        ensures is { self.new ≡ with_row_at self.old place row }
        ensures members { SameMembers self.old self.new }
    {
        self.status.rows.set(place, row);
    }

    // How many of these partitions are stale.
    fn stale_among(&self, map: &[Pp]) -> u32
        requires { length map.now ≤ 130048 }
        ensures { result ≡ count_by (calls_stale self.now) map.now }
    {
        map.iter().filter(|pp| self.is_stale(**pp)).count() as u32
    }
}

// The row of a disk, and its place.
fn row_at(rows: &[StatusRow], disk: u16) -> (usize, StatusRow)
    requires { IsTrue (list_any (λ (row : StatusRow). row.disk == disk) rows.now) }
    ensures { IsRowAt rows.now disk result.0 result.1 }
{
    match place_of(rows, disk) {
        Some(place) => (place, rows[place]),
        None => unreachable!(),
    }
}

fn place_of(rows: &[StatusRow], disk: u16) -> Option<usize>
    ensures { result ≡ position (λ (row : StatusRow). row.disk == disk) rows.now }
{
    rows.iter().position(|row| row.disk == disk)
}

// Whether a partition is marked in the row of its disk.
fn is_marked(row: &StatusRow, pp: u16) -> bool
    ensures { result ≡ has_bit row.now.stale pp }
{
    let bits: &[u8] = &row.stale;
    let bit = usize::from(pp);
    bit < 8 * bits.len() && has_bit(bits, bit)
}

// Puts a number among others that rise, or takes it out.
fn set_among(numbers: &mut VolumeNumbers, number: u16, yes: bool)
    requires dirty { AreDirty numbers.old }
    requires number { IsVolumeNumber number }
    ensures dirty { AreDirty numbers.new }
    ensures sets { SetsAmong numbers.old numbers.new number yes }
{
    match numbers.as_slice().binary_search(&number) {
        Ok(place) => {
            if !yes {
                numbers.remove(place);
            }
        }
        Err(place) => {
            if yes {
                numbers.insert(place, number);
            }
        }
    }
}
