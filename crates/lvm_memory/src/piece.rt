//! A piece of a disk in memory.
ghost use Rattle.std.specs.Prelude.{◌≡◌, ◌+◌, ◌-◌, ◌≤◌, ◌<◌, [], ◌++◌, length, vec_capacity, slice_index_or, slice_set, IfOk, replicate};
ghost use Rattle.lvm_num.specs.Buffer.{zero_sector, IsSector};

use lvm_num::Memory;
use std::alloc::Global;
use std::marker::Model;

/// The sectors of a whole piece: 1 MiB.
pub(crate) const PIECE: u64 = 2048;

/// So many sectors, which contracts see as their list. Only those up to the last that was written are kept, those behind it are zeros: memory that nothing was written to isn't touched.
#[derive(Drop)]
pub(crate) struct Piece {
    count: u64,
    front: Vec<[u8; 512]>,
}

impl Model for Piece {
    ghost use Rattle.std.specs.Prelude.{List, ℕ, vec_capacity};
    ghost use Rattle.lvm_memory.specs.Pieces.{filled_up, FitsCapacity};

    ghost Value = { List (List ℕ) };

    ghost view = { λ p. filled_up p.count p.front.items };

    ghost invariant = { λ p. FitsCapacity p.count (vec_capacity p.front) p.front.items };
}

// Adds sectors of zeros behind others that have room for them.
fn add_zeros(sectors: &mut Vec<[u8; 512]>, count: u64)
    requires { length sectors.old.items + count ≤ vec_capacity sectors.old }
    ensures items { sectors.new.items ≡ sectors.old.items ++ replicate count zero_sector }
    ensures capacity { vec_capacity sectors.old ≤ vec_capacity sectors.new }
{
    for _ in 0..count {
        match sectors.push([0; 512]) {
            Ok(()) => {}
            Err(_) => unreachable!(),
        }
    }
}

// Keeps so many sectors at least, those that weren't kept as zeros.
fn reach(sectors: &mut Vec<[u8; 512]>, count: u64)
    requires { count ≤ vec_capacity sectors.old }
    ensures items { sectors.new.items ≡ sectors.old.items ++ replicate (count - length sectors.old.items) zero_sector }
    ensures capacity { vec_capacity sectors.old ≤ vec_capacity sectors.new }
{
    let kept = sectors.len() as u64;
    add_zeros(sectors, count.saturating_sub(kept));
}

// Keeps a sector at `at`, and all before it.
fn keep(sectors: &mut Vec<[u8; 512]>, at: u64, sector: &[u8; 512])
    requires { at < vec_capacity sectors.old }
    ensures items { sectors.new.items ≡ slice_set (sectors.old.items ++ replicate (at + 1 - length sectors.old.items) zero_sector) at sector.now }
    ensures capacity { vec_capacity sectors.old ≤ vec_capacity sectors.new }
{
    if at == sectors.len() as u64 {
        match sectors.push(*sector) {
            Ok(()) => {}
            Err(_) => unreachable!(),
        }
    } else {
        reach(sectors, at + 1);
        sectors[at as usize] = *sector;
    }
}

impl Piece {
    /// So many sectors of zeros.
    pub(crate) fn blank(alloc: Global, count: u64) -> Result<Piece, Memory>
        ensures { IfOk result (λ piece. piece ≡ replicate count zero_sector) }
    {
        match Vec::with_capacity(alloc, count as usize) {
            Ok(front) => Ok(Piece { count, front }),
            Err(_) => Err(Memory),
        }
    }

    /// What stands in its sector `at`, from 0.
    pub(crate) fn sector(&self, at: u64) -> &[u8; 512]
        requires { at < length self.now }
        ensures { result.now ≡ slice_index_or self.now at [] }
    {
        match self.front.get(at as usize) {
            Some(sector) => sector,
            None => &[0; 512],
        }
    }

    /// Puts 512 bytes into its sector `at`, from 0.
    pub(crate) fn set_sector(&mut self, at: u64, sector: &[u8; 512])
        requires { at < length self.old }
        ensures set { self.new ≡ slice_set self.old at sector.now }
        ensures whole { IsSector sector.now }
    {
        keep(&mut self.front, at, sector);
    }
}
