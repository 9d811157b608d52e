//! The entries of a cache, in the order of their last pin.
ghost use Rattle.std.specs.Prelude.{◌≡◌, ◌+◌, ◌<◌, ◌^◌, position};
ghost use Rattle.lvm_mwc.specs.Entries.{is_entry, is_unpinned, note_of, pins_of, with_unpin, MakesRoom};
ghost use Rattle.lvm_mwc.specs.Filled.{after_pin_in, answer_in};

use crate::cache::Pin;
use arrayvec::ArrayVec;
use lvm_num::NoteEntry;

/// A track group in the cache, with its pins.
#[derive(Clone, Copy, Default)]
pub struct CacheEntry {
    /// A logical volume, not 0.
    pub lv: u16,
    /// A track group of it, 256 blocks, from 0.
    pub group: u32,
    /// How many writes hold it in the cache.
    pub pins: u32,
}

// The place of a track group.
pub fn place_of(entries: &[CacheEntry], lv: u16, group: u32) -> Option<usize>
    ensures { result ≡ position (is_entry lv group) entries.now }
{
    entries
        .iter()
        .position(|entry| entry.lv == lv && entry.group == group)
}

// The first place without pins.
fn first_unpinned(entries: &[CacheEntry]) -> Option<usize>
    ensures { result ≡ position is_unpinned entries.now }
{
    entries.iter().position(|entry| entry.pins == 0)
}

// Takes out the track group's own entry, or where it has none and all places are taken the first
// without pins. Answers the pins that the track group had, None where nothing may be taken out.
fn make_room(entries: &mut ArrayVec<CacheEntry, 62>, lv: u16, group: u32) -> Option<u32>
    ensures { MakesRoom entries.old.items entries.new.items lv group result }
{
    if let Some(place) = place_of(entries, lv, group) {
        return Some(entries.remove(place).pins);
    }
    if entries.is_full() {
        let place = first_unpinned(entries)?;
        entries.remove(place);
    }
    Some(0)
}

// How many pins a track group has, 0 where it isn't there.
pub fn pins_in(entries: &[CacheEntry], lv: u16, group: u32) -> u32
    ensures { result ≡ pins_of entries.now lv group }
{
    match place_of(entries, lv, group) {
        None => 0,
        Some(place) => entries[place].pins,
    }
}

// Gives a track group a pin and the last place, where one may be had.
pub fn pin_in(entries: &mut ArrayVec<CacheEntry, 62>, lv: u16, group: u32) -> Pin
    requires { pins_of entries.old.items lv group + 1 < 2 ^ 32 }
    ensures answer { result ≡ answer_in entries.old.items lv group }
    ensures entries { entries.new.items ≡ after_pin_in entries.old.items lv group }
{
    match make_room(entries, lv, group) {
        None => Pin::AllPinned,
        Some(pins) => {
            entries.push(CacheEntry {
                lv,
                group,
                pins: pins + 1,
            });
            Pin::Pinned
        }
    }
}

// Takes a pin from a track group.
pub fn unpin_in(entries: &mut ArrayVec<CacheEntry, 62>, lv: u16, group: u32)
    requires { 0 < pins_of entries.old.items lv group }
    ensures { entries.new.items ≡ with_unpin entries.old.items lv group }
{
    if let Some(place) = place_of(entries, lv, group) {
        entries[place].pins -= 1;
    }
}

// The track groups, in their order.
pub fn note_of(entries: &ArrayVec<CacheEntry, 62>) -> ArrayVec<NoteEntry, 62>
    ensures { result.items ≡ note_of entries.now.items }
{
    let mut note = ArrayVec::new();
    for entry in entries.as_slice() {
        note.push(NoteEntry {
            lv: entry.lv,
            group: entry.group,
        });
    }
    note
}
