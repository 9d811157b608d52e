//! A disk in memory, in pieces of 1 MiB.
ghost use Rattle.std.specs.Prelude.{◌≡◌, ◌+◌, ◌-◌, ◌%◌, ◌≤◌, ◌<◌, [], ◌∷◌, ◌++◌, ℕ, true, length, slice_index_or, slice_set, IfOk, OnOk, replicate};
ghost use Rattle.std.specs.List.{flat_map};
ghost use Rattle.lvm_num.specs.Buffer.{zero_sector};
ghost use Rattle.lvm_memory.specs.Media.{sizes_of, AllSectors, sectors_in, put_by, picks, FilledFrom};
ghost use Rattle.lvm_memory.specs.Pieces.{joined, AreSizes, IsCut};

use crate::piece::{PIECE, Piece};
use lvm_num::{Memory, Pbuf};
use std::alloc::Global;
use std::marker::Model;

/// A disk of sectors of 512 bytes, which contracts see as the list of its sectors.
#[derive(Drop)]
pub struct Disk {
    pieces: Vec<Piece>,
    count: u64,
}

impl Model for Disk {
    ghost use Rattle.std.specs.Prelude.{List, ℕ};
    ghost use Rattle.lvm_memory.specs.Pieces.{joined, IsCut};

    ghost Value = { List (List ℕ) };

    ghost view = { λ d. joined d.pieces.items };

    ghost invariant = { λ d. IsCut 2048 d.count d.pieces.items };
}

// Whether the word picks the k-th sector.
fn is_picked(word: u64, k: u32) -> bool
    ensures { result ≡ picks word k }
{
    word >> (k % 64) & 1 == 1
}

// What stands in sector `at` of a disk in pieces.
fn sector_of(pieces: &Vec<Piece>, at: u64) -> &[u8; 512]
    requires sizes { AreSizes 2048 (sizes_of pieces.now.items) }
    requires there { at < length (joined pieces.now.items) }
    ensures { result.now ≡ slice_index_or (joined pieces.now.items) at [] }
{
    pieces[(at / PIECE) as usize].sector(at % PIECE)
}

// Puts 512 bytes into sector `at` of a disk in pieces.
fn put_sector(pieces: &mut Vec<Piece>, at: u64, sector: &[u8; 512])
    requires cut { IsCut 2048 (length (joined pieces.old.items)) pieces.old.items }
    requires there { at < length (joined pieces.old.items) }
    ensures put { joined pieces.new.items ≡ slice_set (joined pieces.old.items) at sector.now }
    ensures cut { IsCut 2048 (length (joined pieces.old.items)) pieces.new.items }
{
    pieces[(at / PIECE) as usize].set_sector(at % PIECE, sector);
}

// Adds a piece.
fn push_piece(pieces: &mut Vec<Piece>, piece: Piece) -> Result<(), Memory>
    ensures { OnOk result (pieces.new.items ≡ pieces.old.items ++ piece ∷ []) }
{
    match pieces.push(piece) {
        Ok(()) => Ok(()),
        Err(_) => Err(Memory),
    }
}

// So many pieces of zeros, none of which is a part of one.
fn whole_pieces(alloc: Global, count: u64) -> Result<Vec<Piece>, Memory>
    ensures { IfOk result (λ pieces. pieces.items ≡ replicate count (replicate 2048 zero_sector)) }
{
    let mut pieces = Vec::new(alloc);
    for _ in 0..count {
        push_piece(&mut pieces, Piece::blank(alloc, PIECE)?)?;
    }
    Ok(pieces)
}

impl Disk {
    /// A disk of zeros. Memory is set aside for all of it, and used for what is written.
    pub fn zeros(alloc: Global, count: u64) -> Result<Disk, Memory>
        ensures zeros { IfOk result (λ disk. disk ≡ replicate count zero_sector) }
        ensures sectors { IfOk result AllSectors }
    {
        let mut pieces = whole_pieces(alloc, count / PIECE)?;
        push_piece(&mut pieces, Piece::blank(alloc, count % PIECE)?)?;
        Ok(Disk { pieces, count })
    }

    /// A disk whose sectors are the bytes, 512 by 512. Bytes behind the last whole sector are left out.
    pub fn of_bytes(alloc: Global, bytes: &[u8]) -> Result<Disk, Memory>
        ensures chunks { IfOk result (λ disk. disk ≡ sectors_in bytes.now) }
        ensures sectors { IfOk result AllSectors }
    {
        let chunks = bytes.as_chunks::<512>().0;
        let mut disk = Disk::zeros(alloc, chunks.len() as u64)?;
        disk.set_front(chunks);
        Ok(disk)
    }

    // Puts sectors on it, from its first on.
    fn set_front(&mut self, sectors: &[[u8; 512]])
        requires { length sectors.now ≡ length self.old }
        ensures sectors { AllSectors self.new }
        ensures set { self.new ≡ sectors.now }
    {
        for i in 0..sectors.len() {
            put_sector(&mut self.pieces, i as u64, &sectors[i]);
        }
    }

    /// How many sectors it has.
    pub fn len(&self) -> u64
        ensures { result ≡ length self.now }
    {
        self.count
    }

    /// What stands in its sector `at`, from 0.
    pub fn sector(&self, at: u64) -> &[u8; 512]
        requires { at < length self.now }
        ensures { result.now ≡ slice_index_or self.now at [] }
    {
        sector_of(&self.pieces, at)
    }

    /// Its sectors, one behind the other.
    pub fn image(&self, alloc: Global) -> Result<Vec<u8>, Memory>
        ensures { IfOk result (λ image. image.items ≡ flat_map (λ sector. sector) self.now) }
    {
        let mut image = Vec::new(alloc);
        for at in 0..self.count {
            image.extend_from_slice(sector_of(&self.pieces, at))?;
        }
        Ok(image)
    }

    /// Puts the first `count` sectors of a buffer on it.
    pub fn put(&mut self, first: u64, count: u32, buf: &Pbuf)
        requires fits { first + count ≤ length self.old }
        requires most { count ≤ 256 }
        ensures long { length self.new ≡ length self.old }
        ensures each { (s : ℕ) → slice_index_or self.new s [] ≡ put_by (λ _. true) first count buf.now.sectors self.old s }
        ensures sectors { AllSectors self.new }
    {
        for i in 0..count {
            put_sector(&mut self.pieces, first + i as u64, buf.sector(i));
        }
    }

    /// Puts those of them on it that the word picks, the first of them counted as `from`.
    pub fn put_some(&mut self, first: u64, count: u32, buf: &Pbuf, word: u64, from: u32)
        requires fits { first + count ≤ length self.old }
        requires most { count ≤ 256 }
        requires few { from ≤ 262144 }
        ensures long { length self.new ≡ length self.old }
        ensures each { (s : ℕ) → slice_index_or self.new s [] ≡ put_by (λ i. picks word (from + i)) first count buf.now.sectors self.old s }
        ensures sectors { AllSectors self.new }
    {
        for i in 0..count {
            if is_picked(word, from + i) {
                put_sector(&mut self.pieces, first + i as u64, buf.sector(i));
            }
        }
    }

    /// Fills the first `count` sectors of a buffer from it.
    pub fn fill(&self, first: u64, count: u32, buf: &mut Pbuf)
        requires fits { first + count ≤ length self.now }
        requires most { count ≤ 256 }
        ensures { FilledFrom self.now first count buf.old buf.new }
    {
        for i in 0..count {
            buf.set_sector(i, sector_of(&self.pieces, first + i as u64));
        }
    }
}
