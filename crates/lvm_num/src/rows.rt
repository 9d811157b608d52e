//! A list over a `Vec`.
ghost use Rattle.std.specs.Prelude.{◌≡◌, length, [], ◌==◌, ◌<◌, slice_get, slice_set};
ghost use Rattle.std.specs.Option.{option_copied};
ghost use Rattle.std.specs.Cmp.Lexicographic.{pointwise};
ghost use Rattle.std.specs.Cmp.Rules.{comparing};
ghost use Rattle.std.proofs.Common.{rules};

use std::alloc::Global;
use std::marker::Model;

/// A list of values, which contracts see as that list. It is made from a `Vec` and gives it back
/// without taking memory.
#[derive(Drop)]
pub struct Rows<T> {
    items: Vec<T>,
}

impl<T> Model for Rows<T> {
    ghost use Rattle.std.specs.Prelude.{List};

    ghost Value = { List T };

    ghost view = { λ r. r.items.items };
}

impl<T: PartialEq> PartialEq for Rows<T> {
    ghost eq = { pointwise T.eq };

    ghost laws = { Prim.search (comparing, rules) };

    fn eq(&self, other: &Rows<T>) -> bool {
        self.items == other.items
    }
}

impl<T: Eq> Eq for Rows<T> {
    ghost laws = { Prim.search (comparing, rules) };
}

impl<T> Rows<T> {
    /// No rows.
    pub fn empty(alloc: Global) -> Rows<T>
        ensures { result ≡ [] }
    {
        Rows {
            items: Vec::new(alloc),
        }
    }

    /// The items of a `Vec`, in their order.
    pub fn new(items: Vec<T>) -> Rows<T>
        ensures { result ≡ items.items }
    {
        Rows { items }
    }

    /// The `Vec` again.
    pub fn into_vec(self) -> Vec<T>
        ensures { result.items ≡ self }
    {
        self.items
    }

    pub fn len(&self) -> usize
        ensures { result ≡ length self.now }
    {
        self.items.len()
    }

    pub fn is_empty(&self) -> bool
        ensures { result ≡ (length self.now == 0) }
    {
        self.items.is_empty()
    }

    /// The row at a place, from 0, if there is one.
    pub fn get(&self, place: usize) -> Option<&T>
        ensures { option_copied result ≡ slice_get self.now place }
    {
        self.items.get(place)
    }

    pub fn as_slice(&self) -> &[T]
        ensures { result.now ≡ self.now }
    {
        &self.items
    }

    /// Puts a row at a place, from 0, over the one there.
    pub fn set(&mut self, place: usize, row: T)
    where
        T: Drop,
        requires { place < length self.old }
        ensures { self.new ≡ slice_set self.old place row }
    {
        self.items[place] = row;
    }

    /// Becomes these rows, of which there are as many, without memory.
    pub fn copy_from(&mut self, rows: &[T])
    where
        T: Copy,
        requires { length rows.now ≡ length self.old }
        ensures { self.new ≡ rows.now }
    {
        self.items.copy_from_slice(rows);
    }
}
