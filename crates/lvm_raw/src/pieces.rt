//! The pieces of a range of a disk in no group, one after the other.
ghost use Rattle.std.specs.Prelude.{◌≡◌, ◌≤◌, ◌<◌, ◌^◌, ◌+◌, [], length, vec_len, vec_capacity, Ok, IfOk};
ghost use Rattle.lvm_disk.specs.Device.{IsReady};
ghost use Rattle.lvm_steps.specs.Requests.{IsInNoGroup, at as moment_of};
ghost use Rattle.lvm_raw.specs.Requests.{HasFront};
ghost use Rattle.lvm_raw.specs.Asking.{MayAsk};
ghost use Rattle.lvm_raw.specs.Keeping.{RangeKeeps};
ghost use Rattle.lvm_raw.specs.Pieces.{answer_of, grown, with_front, SettlesPiece, WritesGo, ReadsGo};

use crate::blocks::keep_front;
use crate::check::piece_end;
use crate::fault::RawFault;
use crate::request::{read_piece, write_piece};
use lvm_disk::Shelf;
use lvm_history::History;
use lvm_num::{Pbuf, Rows};
use lvm_transfer::{Moved, Patience};

// Notes the first failure, and hands the buffer of a transfer back that the disk answered.
fn settle(how: Moved, failed: RawFault, fault: &mut Option<RawFault>) -> Result<Pbuf, RawFault>
    ensures { SettlesPiece failed how fault.old fault.new result }
{
    match how {
        Moved::Done(back) => Ok(back),
        Moved::Failed(back) => {
            *fault = Some(fault.unwrap_or(failed));
            Ok(back)
        }
        Moved::Dark { started: _ } => Err(fault.unwrap_or(RawFault::Dark)),
        Moved::Stuck => Err(RawFault::Stuck),
    }
}

// Keeps the blocks that a transfer got.
fn keep_got(blocks: &mut Vec<[u8; 512]>, how: &Moved, count: u32)
    requires count { count ≤ 256 }
    requires room { vec_len blocks.old + count ≤ vec_capacity blocks.old }
    ensures items { blocks.new.items ≡ grown (with_front count) how.now blocks.old.items }
    ensures front { HasFront count how.now }
    ensures len { vec_len blocks.new ≤ vec_len blocks.old + count }
    ensures room { vec_capacity blocks.old ≤ vec_capacity blocks.new }
{
    if let Moved::Done(got) = how {
        keep_front(blocks, got, count);
    }
}

// The answer, where all pieces were answered by the disk.
fn answer<T: Drop>(got: T, fault: Option<RawFault>) -> Result<T, RawFault>
    ensures { result ≡ answer_of got fault }
{
    match fault {
        None => Ok(got),
        Some(why) => Err(why),
    }
}

/// Writes the pieces of a range, block `at + i` filled with `word + i`. The bytes have room for a whole buffer.
pub fn write_pieces<S: Shelf>(
    shelf: &mut S,
    history: &mut History,
    disk: u16,
    at: u64,
    count: u32,
    word: u64,
    bytes: Vec<u8>,
    buf: Pbuf,
    patience: &mut Patience,
) -> Result<(), RawFault>
    requires ready { IsReady (S.device shelf.old) }
    requires last { at + count < 2 ^ 64 }
    requires may { MayAsk (S.device shelf.old) history.old disk at count }
    requires none { IsInNoGroup (S.device shelf.old) disk }
    requires room { 131072 ≤ vec_capacity bytes }
    ensures goes { WritesGo history.old.run disk at count word (moment_of (S.device shelf.old) history.old.facts) (moment_of (S.device shelf.new) history.new.facts) result }
    ensures keeps { RangeKeeps history.old.run disk patience.old.left patience.new.left (moment_of (S.device shelf.old) history.old.facts) (moment_of (S.device shelf.new) history.new.facts) result }
    ensures rooms { history.new ≡ record history.old { facts = history.new.facts } }
{
    let end = at + u64::from(count);
    let mut from = at;
    let mut bytes = bytes;
    let mut back = buf;
    let mut fault = None;
    while from < end {
        let to = piece_end(from, end);
        let first = word.wrapping_add(from - at);
        let how = write_piece(
            shelf,
            history,
            disk,
            from,
            (to - from) as u32,
            first,
            &mut bytes,
            back,
            patience,
        );
        back = settle(how, RawFault::Lost, &mut fault)?;
        from = to;
    }
    answer((), fault)
}

/// Reads the pieces of a range. The bytes have room for a whole buffer, and the blocks for the range.
pub fn read_pieces<S: Shelf>(
    shelf: &mut S,
    history: &mut History,
    disk: u16,
    at: u64,
    count: u32,
    bytes: Vec<u8>,
    blocks: Vec<[u8; 512]>,
    buf: Pbuf,
    patience: &mut Patience,
) -> Result<Rows<[u8; 512]>, RawFault>
    requires ready { IsReady (S.device shelf.old) }
    requires last { at + count < 2 ^ 64 }
    requires may { MayAsk (S.device shelf.old) history.old disk at count }
    requires none { IsInNoGroup (S.device shelf.old) disk }
    requires room { 131072 ≤ vec_capacity bytes }
    requires empty { blocks.items ≡ [] }
    requires length { vec_len blocks ≡ 0 }
    requires blocks { count ≤ vec_capacity blocks }
    ensures got { IfOk result (λ blocks. length blocks ≡ count) }
    ensures goes { ReadsGo history.old.run disk at count (moment_of (S.device shelf.old) history.old.facts) (moment_of (S.device shelf.new) history.new.facts) result }
    ensures keeps { RangeKeeps history.old.run disk patience.old.left patience.new.left (moment_of (S.device shelf.old) history.old.facts) (moment_of (S.device shelf.new) history.new.facts) result }
    ensures rooms { history.new ≡ record history.old { facts = history.new.facts } }
{
    let end = at + u64::from(count);
    let mut from = at;
    let mut bytes = bytes;
    let mut blocks = blocks;
    let mut back = buf;
    let mut fault = None;
    while from < end {
        let to = piece_end(from, end);
        let length = (to - from) as u32;
        let how = read_piece(
            shelf, history, disk, from, length, &mut bytes, back, patience,
        );
        keep_got(&mut blocks, &how, length);
        back = settle(how, RawFault::ReadFailed, &mut fault)?;
        from = to;
    }
    answer(Rows::new(blocks), fault)
}
