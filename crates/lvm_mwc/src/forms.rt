//! The entries of a cache in either of two forms.
ghost use Rattle.std.specs.Prelude.{◌≡◌, ◌≢◌, ◌+◌, ◌<◌, ◌^◌, [], position, IfOk};
ghost use Rattle.lvm_mwc.specs.Entries.{is_entry, note_of, pins_of, with_unpin};
ghost use Rattle.lvm_mwc.specs.Filled.{after_pin_in, answer_in};

use crate::cache::Pin;
use crate::entries::{CacheEntry, note_of, pin_in, pins_in, place_of, unpin_in};
use crate::filled::Filled;
use arrayvec::ArrayVec;
use lvm_num::{Memory, NoteEntry};
use std::alloc::Global;
use std::marker::Model;

/// The entries of a cache in the order of their last pin, oldest first. They stand in a map; once it was refused
/// memory they stand in a plain list for good, whose places are reserved beside it. No answer depends on the form.
#[derive(Drop)]
pub struct Entries {
    filled: Filled,
    plain: ArrayVec<CacheEntry, 62>,
    is_plain: bool,
}

impl Model for Entries {
    ghost use Rattle.std.specs.Prelude.{List, if◌then◌else◌};
    ghost use Rattle.lvm_mwc.specs.declared.entries.CacheEntry.{CacheEntry};
    ghost use Rattle.lvm_mwc.specs.Filled.{listed};

    ghost Value = { List CacheEntry };

    ghost view = { λ e. if e.is_plain then e.plain.items else listed e.filled };
}

impl Entries {
    /// No entries, in a map.
    pub fn new(alloc: Global) -> Result<Entries, Memory>
        ensures { IfOk result (λ e. e ≡ []) }
    {
        let filled = Filled::new(alloc)?;
        Ok(Entries {
            filled,
            plain: ArrayVec::new(),
            is_plain: false,
        })
    }

    /// The place of a track group.
    pub fn place_of(&self, lv: u16, group: u32) -> Option<usize>
        ensures { result ≡ position (is_entry lv group) self.now }
    {
        if self.is_plain {
            place_of(&self.plain, lv, group)
        } else {
            place_of(&self.filled.list(), lv, group)
        }
    }

    /// How many pins a track group has, 0 where it isn't there.
    pub fn pins(&self, lv: u16, group: u32) -> u32
        ensures { result ≡ pins_of self.now lv group }
    {
        if self.is_plain {
            pins_in(&self.plain, lv, group)
        } else if lv == 0 {
            0
        } else {
            self.filled.pins(lv, group)
        }
    }

    /// Gives a track group a pin and the last place. One that isn't there takes a free place, else that of the first
    /// without pins.
    pub fn pin(&mut self, lv: u16, group: u32) -> Pin
        requires volume { lv ≢ 0 }
        requires room { pins_of self.old lv group + 1 < 2 ^ 32 }
        ensures answer { result ≡ answer_in self.old lv group }
        ensures entries { self.new ≡ after_pin_in self.old lv group }
    {
        if self.is_plain {
            return pin_in(&mut self.plain, lv, group);
        }
        if let Ok(pin) = self.filled.pin(lv, group) {
            return pin;
        }
        self.plain = self.filled.list();
        self.is_plain = true;
        pin_in(&mut self.plain, lv, group)
    }

    /// Takes a pin from a track group, which stays where it is.
    pub fn unpin(&mut self, lv: u16, group: u32)
        requires { 0 < pins_of self.old lv group }
        ensures { self.new ≡ with_unpin self.old lv group }
    {
        if self.is_plain {
            unpin_in(&mut self.plain, lv, group);
        } else {
            self.filled.unpin(lv, group);
        }
    }

    /// The track groups, in their order.
    pub fn note(&self) -> ArrayVec<NoteEntry, 62>
        ensures { result.items ≡ note_of self.now }
    {
        if self.is_plain {
            note_of(&self.plain)
        } else {
            note_of(&self.filled.list())
        }
    }
}
