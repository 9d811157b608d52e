//! The consistency records of the disks, as they are written.
ghost use Rattle.std.specs.Prelude.{◌≡◌, ◌≤◌, ◌==◌, position, IfOk, vec_capacity};
ghost use Rattle.lvm_mwc.specs.Cache.{ended};
ghost use Rattle.lvm_mwc.specs.Filters.{PassesAll, passes};
ghost use Rattle.lvm_mwc.specs.Notes.{names_group, both_name, is_in_flight, common, disks_of};

use arrayvec::ArrayVec;
use lvm_num::{Memory, NoteEntry};
use std::alloc::Global;

/// The consistency record of one disk.
#[derive(Drop)]
pub struct DiskNotes {
    pub disk: u16,
    /// The note that was written last; where writes of notes failed since, what it and all of those
    /// name, since any of them may stand on the disk.
    pub written: ArrayVec<NoteEntry, 62>,
    /// The note that is being written.
    pub flight: Option<ArrayVec<NoteEntry, 62>>,
}

// The disks, in the order of their notes.
pub fn disks_of(alloc: Global, notes: &[DiskNotes]) -> Result<Vec<u16>, Memory>
    ensures disks { IfOk result (λ disks. disks.items ≡ disks_of notes.now) }
    ensures room { IfOk result (λ disks. 128 ≤ vec_capacity disks) }
{
    let mut disks = Vec::with_capacity(alloc, ROOM)?;
    for row in notes {
        disks.push(row.disk)?;
    }
    Ok(disks)
}

// The place of a disk.
pub fn place_of_disk(disks: &[u16], disk: u16) -> Option<usize>
    ensures { result ≡ position (λ d. d == disk) disks.now }
{
    disks.iter().position(|d| *d == disk)
}

// Whether a note names a track group. It is looked for from the end, where those stand that were pinned last.
fn names_group(note: &[NoteEntry], lv: u16, group: u32) -> bool
    ensures { result ≡ names_group note.now lv group }
{
    note.iter()
        .rev()
        .any(|entry| entry.lv == lv && entry.group == group)
}

// Whether the note that was written and the one in flight name a track group.
pub fn both_name(notes: &DiskNotes, lv: u16, group: u32) -> bool
    ensures { result ≡ both_name lv group notes.now }
{
    match &notes.flight {
        None => names_group(&notes.written, lv, group),
        Some(flight) => names_group(&notes.written, lv, group) && names_group(flight, lv, group),
    }
}

// Whether the note in flight names a track group.
pub fn is_in_flight(notes: &DiskNotes, lv: u16, group: u32) -> bool
    ensures { result ≡ is_in_flight lv group notes.now }
{
    match &notes.flight {
        None => false,
        Some(flight) => names_group(flight, lv, group),
    }
}

// What both notes have.
fn common(written: &ArrayVec<NoteEntry, 62>, flight: &[NoteEntry]) -> ArrayVec<NoteEntry, 62>
    ensures { result.items ≡ common written.now.items flight.now }
{
    let mut both = ArrayVec::new();
    for entry in written.as_slice() {
        if names_group(flight, entry.lv, entry.group) {
            both.push(*entry);
        }
    }
    both
}

// The note in flight, if any, ends well or by a fault.
pub fn end_flight(notes: &mut DiskNotes, ok: bool)
    ensures { notes.new ≡ ended ok notes.old }
{
    if let Some(flight) = notes.flight.take() {
        notes.written = if ok {
            flight
        } else {
            common(&notes.written, &flight)
        };
    }
}

/// How many disks a cache has room for: all that a shelf may have.
pub(crate) const ROOM: usize = 128;

/// How many numbers of track groups a filter tells apart.
pub(crate) const FILTER: usize = 512;

// A filter that passes what a note names.
pub fn filter_of(note: &[NoteEntry]) -> [bool; FILTER]
    ensures { PassesAll result note.now }
{
    let mut filter = [false; FILTER];
    for entry in note {
        filter[entry.group as usize % FILTER] = true;
    }
    filter
}

// Whether a filter passes a track group.
pub fn passes(filter: &[bool; FILTER], group: u32) -> bool
    ensures { result ≡ passes filter.now group }
{
    filter[group as usize % FILTER]
}
