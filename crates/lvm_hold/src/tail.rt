//! The tail of a list: of its items those that haven't left at its front.
ghost use Rattle.std.specs.Prelude.{◌≡◌, ◌<◌, ◌≤◌, ◌++◌, [], ◌∷◌, ℕ, length, drop, remove, slice_get, slice_set, Some, IfOk, vec_len, vec_capacity};

use lvm_num::Memory;
use std::alloc::Global;
use std::marker::Model;

/// Items in their order, which lie in one piece. The first one leaves without a move of the others. Contracts see their
/// list, and how many there is room for.
#[derive(Drop)]
pub struct Tail<T> {
    room: u32,
    // How many have left at the front of the list, which are still in it.
    gone: usize,
    list: Vec<T>,
}

impl<T> Model for Tail<T> {
    ghost use Rattle.std.specs.Prelude.{◌≤◌, drop, vec_capacity, vec_len};
    ghost use Rattle.lvm_hold.specs.Tails.{Items};

    ghost Value = { Items T };

    ghost view = { λ t. record { room = t.room; items = drop t.gone t.list.items } };

    ghost invariant = { λ t. (t.gone ≤ vec_len t.list) × (t.room ≤ vec_capacity t.list) };
}

impl<T: Copy> Tail<T> {
    /// No items, and room for so many. There is place for twice as many, so that those that stay are moved seldom.
    pub fn new(alloc: Global, room: u32) -> Result<Tail<T>, Memory>
        ensures { IfOk result (λ tail. tail ≡ record { room = room; items = [] }) }
    {
        let list = Vec::with_capacity(alloc, 2 * room as usize)?;
        Ok(Tail {
            room,
            gone: 0,
            list,
        })
    }

    /// Those that haven't left.
    pub fn as_slice(&self) -> &[T]
        ensures { result.now ≡ self.now.items }
    {
        &self.list[self.gone..]
    }

    /// The one at a place, from 0.
    pub fn at(&self, place: usize) -> T
        requires { place < length self.now.items }
        ensures { slice_get self.now.items place ≡ Some result }
    {
        self.as_slice()[place]
    }

    /// One more, behind the others.
    pub fn push(&mut self, item: T)
        requires { length self.old.items < self.old.room }
        ensures { self.new ≡ record self.old { items = self.old.items ++ item ∷ [] } }
    {
        if self.list.len() == self.list.capacity() {
            let_go(&mut self.list, self.gone);
            self.gone = 0;
        }
        append(&mut self.list, item);
    }

    /// Puts an item in the place of the one at a place, from 0.
    pub fn set(&mut self, place: usize, item: T)
        requires { place < length self.old.items }
        ensures { self.new ≡ record self.old { items = slice_set self.old.items place item } }
    {
        self.list[self.gone + place] = item;
    }

    /// The one at a place leaves.
    pub fn remove(&mut self, place: usize)
        requires { place < length self.old.items }
        ensures { self.new ≡ record self.old { items = remove self.old.items place } }
    {
        if place == 0 {
            self.gone += 1;
        } else {
            self.list.remove(self.gone + place);
        }
    }
}

// The first items go, so many, and the others move to the front.
fn let_go<T: Copy>(list: &mut Vec<T>, gone: usize)
    requires { gone ≤ vec_len list.old }
    ensures items { list.new.items ≡ drop gone list.old.items }
    ensures capacity { vec_capacity list.old ≤ vec_capacity list.new }
{
    let left = list.len() - gone;
    list.copy_within(gone.., 0);
    list.truncate(left);
}

// Adds an item to items that have room.
fn append<T>(list: &mut Vec<T>, item: T)
    requires { vec_len list.old < vec_capacity list.old }
    ensures items { list.new.items ≡ list.old.items ++ item ∷ [] }
    ensures capacity { vec_capacity list.old ≤ vec_capacity list.new }
{
    match list.push(item) {
        Ok(()) => {}
        Err(_) => unreachable!(),
    }
}
