//! The entries of a cache as the keys of a map that is always full.
ghost use Rattle.std.specs.Prelude.{◌≡◌, ◌==◌, ◌+◌, ◌<◌, ◌^◌, [], ◌∷◌, ◌++◌, false, length, position, remove, slice_index_or, IfOk, OnOk, OnErr};
ghost use Rattle.lvm_mwc.specs.Entries.{has_entry, is_entry, pins_of, with_unpin};
ghost use Rattle.lvm_mwc.specs.Filled.{blank, is_filler, listed, new_last, pinned, pinned_answer, place_to_take, with_pin_more};

use crate::cache::Pin;
use crate::entries::CacheEntry;
use arrayvec::ArrayVec;
use indexmap::IndexMap;
use lvm_num::Memory;
use std::alloc::Global;
use std::marker::Model;

/// A track group. One of volume 0 is a filler: it takes a place that is free.
#[derive(Clone, Copy, PartialEq, Eq, Hash)]
pub struct Key {
    pub lv: u16,
    pub group: u32,
}

/// 62 track groups, fillers among them, in the order of their last pin, oldest first, each with its pins.
#[derive(Drop)]
pub struct Filled {
    keys: IndexMap<Key, u32>,
}

impl Model for Filled {
    ghost use Rattle.std.specs.Prelude.{◌≡◌, List, length};
    ghost use Rattle.lvm_mwc.specs.declared.entries.CacheEntry.{CacheEntry};
    ghost use Rattle.lvm_mwc.specs.Laid.{laid};

    ghost Value = { List CacheEntry };

    ghost view = { λ f. laid f.keys.entries };

    ghost invariant = { λ f. length f.keys.entries ≡ 62 };
}

// The first filler.
fn first_filler(keys: &[Key]) -> Option<usize>
    ensures { result ≡ position (λ key. key.lv == 0) keys.now }
{
    keys.iter().position(|key| key.lv == 0)
}

// The first place without pins.
fn first_without_pins(pins: &[u32]) -> Option<usize>
    ensures { result ≡ position (λ pins. pins == 0) pins.now }
{
    pins.iter().position(|pins| *pins == 0)
}

impl Filled {
    /// Fillers alone. A pin of a new track group takes one more place for a moment, which is there too.
    pub fn new(alloc: Global) -> Result<Filled, Memory>
        ensures { IfOk result (λ f. listed f ≡ []) }
    {
        let mut keys = IndexMap::with_capacity(alloc, 63)?;
        for group in 0..62 {
            keys.insert(Key { lv: 0, group }, 0)?;
        }
        Ok(Filled { keys })
    }

    // The place of a track group.
    fn place_of(&self, lv: u16, group: u32) -> Option<usize>
        ensures place { result ≡ position (is_entry lv group) self.now }
        ensures full { length self.now ≡ 62 }
    {
        self.keys.get_index_of(&Key { lv, group })
    }

    /// How many pins a track group has, 0 where it isn't there.
    pub fn pins(&self, lv: u16, group: u32) -> u32
        ensures { result ≡ pins_of self.now lv group }
    {
        match self.place_of(lv, group) {
            None => 0,
            Some(place) => self.keys[place],
        }
    }

    // The first place of a filler, else the first without pins.
    fn place_to_take(&self) -> Option<usize>
        ensures { result ≡ place_to_take self.now }
    {
        if let Some(place) = first_filler(self.keys.keys().as_slice()) {
            return Some(place);
        }
        first_without_pins(self.keys.values().as_slice())
    }

    // Gives the track group at a place a pin and the last place.
    fn move_to_end(&mut self, place: usize)
        requires within { place < length self.old }
        requires room { (slice_index_or self.old place blank).pins + 1 < 2 ^ 32 }
        ensures { self.new ≡ remove self.old place ++ with_pin_more (slice_index_or self.old place blank) ∷ [] }
    {
        self.keys[place] += 1;
        let last = self.keys.len() - 1;
        self.keys.move_index(place, last);
    }

    // Puts a new track group last, with one pin, and takes out the one at a place. Where there is no memory nothing
    // has changed.
    fn put_for(&mut self, place: usize, lv: u16, group: u32) -> Result<(), Memory>
        requires within { place < length self.old }
        requires new { has_entry self.old lv group ≡ false }
        ensures done { OnOk result (self.new ≡ new_last (remove self.old place) lv group 1) }
        ensures refused { OnErr result (self.new ≡ self.old) }
    {
        self.keys.insert(Key { lv, group }, 1)?;
        self.keys.shift_remove_index(place);
        Ok(())
    }

    /// Gives a track group a pin and the last place. A new one takes the place of the first filler, else that of the
    /// first without pins. It errs where there is no memory for the new key, and then nothing has changed.
    pub fn pin(&mut self, lv: u16, group: u32) -> Result<Pin, Memory>
        requires room { pins_of self.old lv group + 1 < 2 ^ 32 }
        ensures answer { IfOk result (λ pin. pin ≡ pinned_answer self.old lv group) }
        ensures pinned { OnOk result (self.new ≡ pinned self.old lv group) }
        ensures refused { OnErr result (self.new ≡ self.old) }
        ensures full { length self.old ≡ 62 }
    {
        if let Some(place) = self.place_of(lv, group) {
            self.move_to_end(place);
            return Ok(Pin::Pinned);
        }
        match self.place_to_take() {
            None => Ok(Pin::AllPinned),
            Some(place) => {
                self.put_for(place, lv, group)?;
                Ok(Pin::Pinned)
            }
        }
    }

    /// Takes a pin from a track group, which stays where it is.
    pub fn unpin(&mut self, lv: u16, group: u32)
        requires { 0 < pins_of self.old lv group }
        ensures { self.new ≡ with_unpin self.old lv group }
    {
        if let Some(place) = self.place_of(lv, group) {
            self.keys[place] -= 1;
        }
    }

    /// The track groups that aren't fillers, in their order.
    pub fn list(&self) -> ArrayVec<CacheEntry, 62>
        ensures { result.items ≡ listed self.now }
    {
        let mut list = ArrayVec::new();
        for (key, pins) in self.keys.iter() {
            if key.lv != 0 {
                list.push(CacheEntry {
                    lv: key.lv,
                    group: key.group,
                    pins: *pins,
                });
            }
        }
        list
    }
}
