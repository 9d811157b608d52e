//! A pool of numbered buffers.
ghost use Rattle.std.specs.Prelude.{◌≡◌, ◌≤◌, ◌↔◌, false, not, replicate, slice_set, IfOk, IfSome, IsNone, IfNone, is_some, position};
ghost use Rattle.std.specs.List.{list_any};
ghost use Rattle.lvm_pbuf.specs.Out.{IsOut, TakesLowest, AreAllOut};

use lvm_num::{Memory, Pbuf};
use std::alloc::Global;
use std::marker::Model;

/// Buffers that are numbered from 0. Contracts see for each number whether its buffer is out.
#[derive(Drop)]
pub struct Pool {
    // The buffer of each number, None where it is out.
    places: Vec<Option<Pbuf>>,
}

impl Model for Pool {
    ghost use Rattle.std.specs.Prelude.{List, Bool, map, is_none};
    ghost use Rattle.lvm_pbuf.specs.Places.{IsAtHome};

    ghost Value = { List Bool };

    ghost view = { λ p. map is_none p.places.items };

    ghost invariant = { λ p. IsAtHome p.places.items };
}

impl Pool {
    /// So many buffers, of which none is out.
    pub fn new(alloc: Global, count: u32) -> Result<Pool, Memory>
        requires some { 1 ≤ count }
        requires most { count ≤ 1024 }
        ensures { IfOk result (λ pool. pool ≡ replicate count false) }
    {
        let mut places = Vec::new(alloc);
        for number in 0..count {
            let buf = Pbuf::fresh(alloc, number)?;
            if places.push(Some(buf)).is_err() {
                return Err(Memory);
            }
        }
        Ok(Pool { places })
    }

    /// The buffer of the lowest number that isn't out, None where all are. Nothing is said of its sectors.
    pub fn take(&mut self) -> Option<Pbuf>
        ensures number { IfSome result (λ buf. TakesLowest self.old self.new buf.number) }
        ensures none { IsNone result ↔ AreAllOut self.old }
        ensures unchanged { IfNone result (self.new ≡ self.old) }
    {
        let number = first_inside(&self.places)?;
        self.places[number].take()
    }

    /// Takes a buffer back.
    pub fn give(&mut self, buf: Pbuf)
        requires { IsOut self.old buf.number }
        ensures { self.new ≡ slice_set self.old buf.number false }
    {
        let number = buf.number() as usize;
        self.places[number] = Some(buf);
    }

    /// Whether some buffer isn't out.
    #[tactic(auto, using(crate::proofs::PlacesLemmas::any_inside))]
    pub fn has_inside(&self) -> bool
        ensures { result ≡ list_any not self.now }
    {
        is_any_inside(&self.places)
    }
}

// Whether some place has a buffer.
fn is_any_inside(places: &[Option<Pbuf>]) -> bool
    ensures { result ≡ list_any is_some places.now }
{
    places.iter().any(|place| place.is_some())
}

// The lowest place with a buffer.
fn first_inside(places: &[Option<Pbuf>]) -> Option<usize>
    ensures { result ≡ position is_some places.now }
{
    places.iter().position(|place| place.is_some())
}
