//! Sectors of a disk's record area are read, by one transfer after another.
ghost use Rattle.std.specs.Prelude.{◌≡◌, ◌+◌, ◌-◌, ◌*◌, ◌++◌, ◌<◌, ◌≤◌, ℕ, length, max, min, slice_index_or, [], IfSome, IfOk, OnOk};
ghost use Rattle.lvm_disk.specs.passed.NumRecordKind as kind_is;
ghost use Rattle.lvm_disk.specs.passed.Num.{joined, record_in, record_sectors};
ghost use Rattle.lvm_disk.specs.Device.{IsReady};
ghost use Rattle.lvm_disk.specs.Steps.{IsRange};
ghost use Rattle.lvm_transfer.specs.Reading.{announced_length, only_buffer, IsInRecords, OneWasRead, ReadsEnd, SectorsRead};

use crate::moves::{Moved, Patience, transfer};
use lvm_disk::Shelf;
use lvm_num::{BLOCK_BYTES, BUFFER_SECTORS, Pbuf};
use std::alloc::{AllocError, Global};

// The bytes of a record's part in each sector, and those of its length before it.
const PART: usize = 496;

const LENGTH: usize = 4;

const DESCRIPTOR_SECTORS: u32 = 1152;

/// Why reads were ended before their end.
#[derive(Drop)]
pub enum Stop {
    /// Want of memory.
    Memory(Pbuf),
    /// The power was cut, and is off.
    Dark,
    /// Nothing was heard of a read until the patience had run out.
    Stuck,
}

/// Why a disk's records weren't read.
#[derive(Drop)]
pub enum Unread {
    /// A read failed.
    Failed(Pbuf),
    Stopped(Stop),
}

/// Sectors of a disk that are read, of which the first are kept.
#[derive(Clone, Copy)]
pub struct Extent {
    pub disk: u16,
    pub first: u64,
    pub count: u32,
    pub keep: u32,
}

/// Reads sectors of a disk's record area, and answers the bytes of those that are kept.
pub fn read_sectors<S: Shelf>(
    alloc: Global,
    shelf: &mut S,
    extent: Extent,
    buf: Pbuf,
    patience: &mut Patience,
) -> Result<(Vec<u8>, Pbuf), Unread>
    requires ready { IsReady (S.device shelf.old) }
    requires inside { IsInRecords (S.device shelf.old) extent.disk extent.first extent.count }
    requires kept { extent.keep ≤ extent.count }
    ensures reads { ReadsEnd extent.disk buf.number patience.old.left patience.new.left (S.device shelf.old) (S.device shelf.new) (only_buffer result) }
    // All of them are read, those too that aren't kept.
    ensures whole { OnOk result (SectorsRead extent.disk extent.first extent.count (S.device shelf.old) (S.device shelf.new)) }
    ensures size { IfOk result (λ got. length got.0.items ≡ 512 * extent.keep) }
    ensures bytes { IfOk result (λ got. IfSome (S.device shelf.old).media (λ media. got.0.items ≡ joined (media extent.disk) extent.first extent.keep)) }
{
    let Ok(mut bytes) = Vec::with_capacity(alloc, BLOCK_BYTES * extent.keep as usize) else {
        return Err(Unread::Stopped(Stop::Memory(buf)));
    };
    let back = append_sectors(shelf, extent, &mut bytes, buf, patience)?;
    Ok((bytes, back))
}

// Reads sectors of a disk's record area piece by piece, and appends those that are kept.
fn append_sectors<S: Shelf>(
    shelf: &mut S,
    extent: Extent,
    bytes: &mut Vec<u8>,
    buf: Pbuf,
    patience: &mut Patience,
) -> Result<Pbuf, Unread>
    requires ready { IsReady (S.device shelf.old) }
    requires inside { IsInRecords (S.device shelf.old) extent.disk extent.first extent.count }
    requires kept { extent.keep ≤ extent.count }
    ensures reads { ReadsEnd extent.disk buf.number patience.old.left patience.new.left (S.device shelf.old) (S.device shelf.new) result }
    ensures whole { OnOk result (SectorsRead extent.disk extent.first extent.count (S.device shelf.old) (S.device shelf.new)) }
    ensures size { OnOk result (length bytes.new.items ≡ length bytes.old.items + 512 * extent.keep) }
    ensures bytes { OnOk result (IfSome (S.device shelf.old).media (λ media. bytes.new.items ≡ bytes.old.items ++ joined (media extent.disk) extent.first extent.keep)) }
{
    let mut back = buf;
    let mut done = 0;
    while done < extent.count {
        let count = BUFFER_SECTORS.min(extent.count - done);
        let piece = Extent {
            disk: extent.disk,
            first: extent.first + u64::from(done),
            count,
            keep: count.min(extent.keep.saturating_sub(done)),
        };
        back = append_piece(shelf, piece, bytes, back, patience)?;
        done += count;
    }
    Ok(back)
}

// Reads sectors of a disk by one transfer, and appends those that are kept.
fn append_piece<S: Shelf>(
    shelf: &mut S,
    piece: Extent,
    bytes: &mut Vec<u8>,
    buf: Pbuf,
    patience: &mut Patience,
) -> Result<Pbuf, Unread>
    requires ready { IsReady (S.device shelf.old) }
    requires range { IsRange (S.device shelf.old) piece.disk piece.first piece.count }
    requires records { piece.first < 4096 }
    requires kept { piece.keep ≤ piece.count }
    ensures reads { ReadsEnd piece.disk buf.number patience.old.left patience.new.left (S.device shelf.old) (S.device shelf.new) result }
    ensures whole { OnOk result (OneWasRead piece.disk piece.first piece.count (S.device shelf.old) (S.device shelf.new)) }
    ensures size { OnOk result (length bytes.new.items ≡ length bytes.old.items + 512 * piece.keep) }
    ensures bytes { OnOk result (IfSome (S.device shelf.old).media (λ media. bytes.new.items ≡ bytes.old.items ++ joined (media piece.disk) piece.first piece.keep)) }
{
    let back = read_piece(shelf, piece, buf, patience)?;
    match append(bytes, &back, piece.keep) {
        Ok(()) => Ok(back),
        Err(_) => Err(Unread::Stopped(Stop::Memory(back))),
    }
}

// Reads sectors of a disk by one transfer, to the front of a buffer.
fn read_piece<S: Shelf>(
    shelf: &mut S,
    piece: Extent,
    buf: Pbuf,
    patience: &mut Patience,
) -> Result<Pbuf, Unread>
    requires ready { IsReady (S.device shelf.old) }
    requires range { IsRange (S.device shelf.old) piece.disk piece.first piece.count }
    requires records { piece.first < 4096 }
    ensures reads { ReadsEnd piece.disk buf.number patience.old.left patience.new.left (S.device shelf.old) (S.device shelf.new) result }
    ensures whole { OnOk result (OneWasRead piece.disk piece.first piece.count (S.device shelf.old) (S.device shelf.new)) }
    ensures bytes { IfOk result (λ back. (keep : ℕ) → keep ≤ piece.count → IfSome (S.device shelf.old).media (λ media. joined (λ i. slice_index_or back.sectors i []) 0 keep ≡ joined (media piece.disk) piece.first keep)) }
{
    match transfer(
        shelf,
        false,
        piece.disk,
        piece.first,
        piece.count,
        buf,
        patience,
    ) {
        Moved::Done(back) => Ok(back),
        Moved::Failed(back) => Err(Unread::Failed(back)),
        Moved::Dark { started: _ } => Err(Unread::Stopped(Stop::Dark)),
        Moved::Stuck => Err(Unread::Stopped(Stop::Stuck)),
    }
}

// Appends the buffer's first sectors.
fn append(bytes: &mut Vec<u8>, buf: &Pbuf, count: u32) -> Result<(), AllocError>
    requires { count ≤ 256 }
    ensures size { OnOk result (length bytes.new.items ≡ length bytes.old.items + 512 * count) }
    ensures bytes { OnOk result (bytes.new.items ≡ bytes.old.items ++ joined (λ i. slice_index_or buf.now.sectors i []) 0 count) }
{
    bytes.extend_from_slice(buf.front(count))?;
    Ok(())
}

/// Reads a slot of descriptors, and answers bytes in which the same record is found as in all its sectors.
pub fn read_front<S: Shelf>(
    alloc: Global,
    shelf: &mut S,
    disk: u16,
    first: u64,
    buf: Pbuf,
    patience: &mut Patience,
) -> Result<(Vec<u8>, Pbuf), Unread>
    requires ready { IsReady (S.device shelf.old) }
    requires inside { IsInRecords (S.device shelf.old) disk first 1152 }
    ensures reads { ReadsEnd disk buf.number patience.old.left patience.new.left (S.device shelf.old) (S.device shelf.new) (only_buffer result) }
    ensures whole { OnOk result (SectorsRead disk first 1152 (S.device shelf.old) (S.device shelf.new)) }
    ensures record { IfOk result (λ got. IfSome (S.device shelf.old).media (λ media. record_in kind_is.Descriptor got.0.items ≡ record_in kind_is.Descriptor (joined (media disk) first 1152))) }
{
    // All sectors are read. Kept are those of the first read, and all of the record that the first sector announces: of a
    // slot of zeros nearly nothing is copied.
    let front = Extent {
        disk,
        first,
        count: BUFFER_SECTORS,
        keep: BUFFER_SECTORS,
    };
    let (mut bytes, buf) = read_sectors(alloc, shelf, front, buf, patience)?;
    let rest = rest_of(disk, first, &bytes);
    let back = append_sectors(shelf, rest, &mut bytes, buf, patience)?;
    Ok((bytes, back))
}

// The rest of a slot of descriptors whose front has been read, of which what belongs to the record is kept.
fn rest_of(disk: u16, first: u64, front: &[u8]) -> Extent
    requires long { 512 ≤ length front.now }
    requires records { first + 1152 ≤ 4096 }
    ensures { result ≡ record { disk = disk; first = first + 256; count = 896; keep = max 256 (min (record_sectors (announced_length front.now)) 1152) - 256 } }
{
    let record = announced_sectors(front);
    Extent {
        disk,
        first: first + u64::from(BUFFER_SECTORS),
        count: DESCRIPTOR_SECTORS - BUFFER_SECTORS,
        keep: record.clamp(BUFFER_SECTORS, DESCRIPTOR_SECTORS) - BUFFER_SECTORS,
    }
}

// How many sectors the record has that the first sector of a slot announces, if it holds one.
fn announced_sectors(slot: &[u8]) -> u32
    requires { 512 ≤ length slot.now }
    ensures { result ≡ record_sectors (announced_length slot.now) }
{
    let length = u32::from_be_bytes([slot[16], slot[17], slot[18], slot[19]]);
    (length as usize + LENGTH).div_ceil(PART) as u32
}
