//! Numbers of volumes, in room that is taken with them.
ghost use Rattle.std.specs.Prelude.{◌≡◌, ◌<◌, ◌≤◌, ◌==◌, [], length, insert, remove, IfOk};
ghost use Rattle.std.specs.Cmp.Lexicographic.{pointwise};
ghost use Rattle.std.specs.Cmp.Rules.{comparing};
ghost use Rattle.std.proofs.Common.{rules, eqb};

use crate::Memory;
use std::alloc::Global;
use std::marker::Model;

const ROOM: usize = 511;

/// Numbers of volumes, with room for all 511 that a group may have, so that adding one takes no
/// memory. Contracts see their list.
#[derive(Drop)]
pub struct VolumeNumbers {
    items: Vec<u16>,
}

impl Model for VolumeNumbers {
    ghost use Rattle.std.specs.Prelude.{List, ℕ, ◌≤◌, vec_capacity};

    ghost Value = { List ℕ };

    ghost view = { λ n. n.items.items };

    ghost invariant = { λ n. 511 ≤ vec_capacity n.items };
}

impl PartialEq for VolumeNumbers {
    ghost eq = { pointwise eqb };

    ghost laws = { Prim.search (comparing, rules) };

    fn eq(&self, other: &VolumeNumbers) -> bool {
        self.items == other.items
    }
}

impl Eq for VolumeNumbers {
    ghost laws = { Prim.search (comparing, rules) };
}

impl VolumeNumbers {
    /// No numbers, and the room.
    pub fn empty(alloc: Global) -> Result<VolumeNumbers, Memory>
        ensures { IfOk result (λ numbers. numbers ≡ []) }
    {
        match Vec::with_capacity(alloc, ROOM) {
            Ok(items) => Ok(VolumeNumbers { items }),
            Err(_) => Err(Memory),
        }
    }

    /// These numbers, and the room.
    pub fn new(alloc: Global, numbers: &[u16]) -> Result<VolumeNumbers, Memory>
        ensures { IfOk result (λ all. all ≡ numbers.now) }
    {
        let mut all = VolumeNumbers::empty(alloc)?;
        if all.items.extend_from_slice(numbers).is_err() {
            return Err(Memory);
        }
        Ok(all)
    }

    pub fn len(&self) -> usize
        ensures { result ≡ length self.now }
    {
        self.items.len()
    }

    pub fn is_empty(&self) -> bool
        ensures { result ≡ (length self.now == 0) }
    {
        self.items.is_empty()
    }

    pub fn as_slice(&self) -> &[u16]
        ensures { result.now ≡ self.now }
    {
        &self.items
    }

    /// Puts a number at a place, from 0, before those that are there and behind.
    pub fn insert(&mut self, place: usize, number: u16)
        requires place { place ≤ length self.old }
        requires room { length self.old < 511 }
        ensures { self.new ≡ insert self.old place number }
    {
        match self.items.insert(place, number) {
            Ok(()) => {}
            Err(_) => unreachable!(),
        }
    }

    /// Takes the number at a place out.
    pub fn remove(&mut self, place: usize)
        requires { place < length self.old }
        ensures { self.new ≡ remove self.old place }
    {
        self.items.remove(place);
    }

    /// Takes all numbers out.
    pub fn clear(&mut self)
        ensures { self.new ≡ [] }
    {
        self.items.clear();
    }

    /// Becomes these numbers, without memory.
    pub fn copy_from(&mut self, numbers: &[u16])
        requires { length numbers.now ≤ 511 }
        ensures { self.new ≡ numbers.now }
    {
        self.items.clear();
        match self.items.extend_from_slice(numbers) {
            Ok(()) => {}
            Err(_) => unreachable!(),
        }
    }
}
