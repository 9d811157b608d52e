//! Whether a range of a disk may be asked for.
ghost use Rattle.std.specs.Prelude.{◌≡◌, ◌+◌, ◌-◌, ◌%◌, ◌^◌, ◌<◌, ◌≤◌, OnOk, IfErr};
ghost use Rattle.lvm_raw.specs.Asking.{IsRejected, MayAsk};
ghost use Rattle.lvm_raw.specs.Pieces.{piece_count, piece_end};

use crate::fault::RawFault;
use lvm_disk::Shelf;
use lvm_history::History;
use lvm_num::{BLOCK_BYTES, DATA_START, TRACK_GROUP};

// A piece ends at a multiple of so many blocks.
const GROUP: u64 = TRACK_GROUP as u64;

const BLOCK: u64 = BLOCK_BYTES as u64;

// The entries of a request: that it has begun, has landed, and was taken.
const ENTRIES: u64 = 3;

/// Tells why nothing is asked of the disk, if something is against it.
pub fn check<S: Shelf>(
    shelf: &S,
    history: &History,
    disk: u16,
    at: u64,
    count: u32,
) -> Result<(), RawFault>
    requires { 1 ≤ count }
    ensures ok { OnOk result (MayAsk (S.device shelf.now) history.now disk at count) }
    ensures last { OnOk result (at + count < 2 ^ 64) }
    ensures err { IfErr result (IsRejected (S.device shelf.now) history.now disk at count) }
{
    if disk >= shelf.disks() {
        return Err(RawFault::NoDisk { disk });
    }
    let blocks = shelf.sectors(disk);
    let wanted = u64::from(count);
    if at < DATA_START || at > blocks || wanted > blocks - at {
        return Err(RawFault::OutOfRange { blocks });
    }
    let entries = ENTRIES * piece_count(at, wanted);
    if u64::from(history.spare_entries()) < entries || history.spare_bytes() < BLOCK * wanted {
        return Err(RawFault::HistoryFull);
    }
    Ok(())
}

// How many pieces the range has.
fn piece_count(at: u64, count: u64) -> u64
    requires some { 1 ≤ count }
    requires last { at + count < 2 ^ 64 }
    ensures is { result ≡ piece_count at count }
    ensures few { result < 2 ^ 60 }
{
    (at + count - 1) / GROUP - at / GROUP + 1
}

/// Where the piece ends that begins here.
pub fn piece_end(from: u64, end: u64) -> u64
    requires { from < end }
    ensures is { result ≡ piece_end from end }
    ensures some { from < result }
    ensures within { result ≤ end }
    ensures few { result ≤ from + 256 }
    ensures group { from % 256 + (result - from) ≤ 256 }
{
    let left = GROUP - from % GROUP;
    if end - from <= left { end } else { from + left }
}
