//! Reading and writing a range of a disk, in pieces, once its records show that it is in no group.
ghost use Rattle.std.specs.Prelude.{◌≡◌, ◌+◌, ◌^◌, ◌<◌, ◌≤◌, length, OnOk, IfOk, IfErr};
ghost use Rattle.lvm_disk.specs.Device.{IsReady};
ghost use Rattle.lvm_steps.specs.Requests.{at as moment_of};
ghost use Rattle.lvm_raw.specs.declared.fault.RawFault.TheVariants as fault;
ghost use Rattle.lvm_raw.specs.Asking.{MayAsk};
ghost use Rattle.lvm_raw.specs.Ends.{RawEnds};
ghost use Rattle.lvm_raw.specs.Keeping.{RangeKeeps};
ghost use Rattle.lvm_raw.specs.Looking.{FindsNone};
ghost use Rattle.lvm_raw.specs.Raw.{without_facts, WriteGives, ReadGives, IsNotAsked};

use crate::check::check;
use crate::fault::RawFault;
use crate::look::look;
use crate::pieces::{read_pieces, write_pieces};
use lvm_disk::Shelf;
use lvm_history::History;
use lvm_num::{BUFFER_BYTES, Pbuf, Rows};
use lvm_transfer::Patience;
use std::alloc::Global;

/// Writes `count` blocks of a disk from block `at` on, block `at + i` filled with `word + i`, wrapping. Blocks are
/// sectors. The disk's descriptor slots are read first. Then the range is written in pieces that end at multiples of
/// 256, each as a request of client 1 of the history and by one transfer, the next once the disk has answered the one
/// before, also where it failed. The first that didn't end well decides the answer. After a power cut the rest is left
/// out, and the power is on again. At `Stuck` one transfer stays out. No memory is taken once a request has begun.
pub fn write_disk<S: Shelf>(
    alloc: Global,
    shelf: &mut S,
    history: &mut History,
    disk: u16,
    at: u64,
    count: u32,
    word: u64,
    patience: &mut Patience,
) -> Result<(), RawFault>
    requires ready { IsReady (S.device shelf.old) }
    requires some { 1 ≤ count }
    ensures does { WriteGives (without_facts history.old) disk at count word patience.old.left (moment_of (S.device shelf.old) history.old.facts) (moment_of (S.device shelf.new) history.new.facts) result }
    ensures ends { RawEnds fault.Lost history.old disk at count patience.old.left (S.device shelf.old) (S.device shelf.new) result }
    ensures keeps { RangeKeeps history.old.run disk patience.old.left patience.new.left (moment_of (S.device shelf.old) history.old.facts) (moment_of (S.device shelf.new) history.new.facts) result }
    ensures rooms { history.new ≡ record history.old { facts = history.new.facts } }
{
    let buf = ask(alloc, shelf, history, disk, at, count, patience)?;
    let Ok(bytes) = Vec::with_capacity(alloc, BUFFER_BYTES) else {
        return Err(RawFault::Memory);
    };
    write_pieces(shelf, history, disk, at, count, word, bytes, buf, patience)
}

/// Reads `count` blocks of a disk from block `at` on, and answers them in their order. Blocks are sectors. The disk's
/// descriptor slots are read first. Then the range is read in pieces that end at multiples of 256, each as a request
/// of client 1 of the history and by one transfer, the next once the disk has answered the one before, also where it
/// failed. The first that didn't end well decides the answer. After a power cut the rest is left out, and the power is
/// on again. At `Stuck` one transfer stays out. No memory is taken once a request has begun.
pub fn read_disk<S: Shelf>(
    alloc: Global,
    shelf: &mut S,
    history: &mut History,
    disk: u16,
    at: u64,
    count: u32,
    patience: &mut Patience,
) -> Result<Rows<[u8; 512]>, RawFault>
    requires ready { IsReady (S.device shelf.old) }
    requires some { 1 ≤ count }
    ensures does { ReadGives (without_facts history.old) disk at count patience.old.left (moment_of (S.device shelf.old) history.old.facts) (moment_of (S.device shelf.new) history.new.facts) result }
    ensures got { IfOk result (λ blocks. (length blocks ≡ count) × (at + count < 2 ^ 64)) }
    ensures ends { RawEnds fault.ReadFailed history.old disk at count patience.old.left (S.device shelf.old) (S.device shelf.new) result }
    ensures keeps { RangeKeeps history.old.run disk patience.old.left patience.new.left (moment_of (S.device shelf.old) history.old.facts) (moment_of (S.device shelf.new) history.new.facts) result }
    ensures rooms { history.new ≡ record history.old { facts = history.new.facts } }
{
    let buf = ask(alloc, shelf, history, disk, at, count, patience)?;
    let (Ok(bytes), Ok(blocks)) = (
        Vec::with_capacity(alloc, BUFFER_BYTES),
        Vec::with_capacity(alloc, count as usize),
    ) else {
        return Err(RawFault::Memory);
    };
    read_pieces(
        shelf, history, disk, at, count, bytes, blocks, buf, patience,
    )
}

// Answers a buffer where nothing is against the range and its disk is in no group.
fn ask<S: Shelf>(
    alloc: Global,
    shelf: &mut S,
    history: &mut History,
    disk: u16,
    at: u64,
    count: u32,
    patience: &mut Patience,
) -> Result<Pbuf, RawFault>
    requires ready { IsReady (S.device shelf.old) }
    requires some { 1 ≤ count }
    ensures may { OnOk result (MayAsk (S.device shelf.old) history.old disk at count × (at + count < 2 ^ 64)) }
    ensures found { OnOk result (FindsNone patience.old.left disk (S.device shelf.old) (S.device shelf.new)) }
    ensures same { OnOk result (history.new ≡ history.old) }
    ensures unasked { IfErr result (IsNotAsked disk at count patience.old.left history.old (S.device shelf.old) history.new (S.device shelf.new)) }
    ensures keeps { RangeKeeps history.old.run disk patience.old.left patience.new.left (moment_of (S.device shelf.old) history.old.facts) (moment_of (S.device shelf.new) history.new.facts) result }
{
    match check(shelf, history, disk, at, count) {
        Ok(()) => look(alloc, shelf, history, disk, patience),
        Err(why) => Err(why),
    }
}
