//! A range of a volume is asked for.
ghost use Rattle.std.specs.Prelude.{◌≡◌, ◌≤◌, ◌<◌, ◌+◌, ◌-◌, ◌%◌, ◌^◌, Option, Some, None, IfOk, option_copied, vec_capacity};
ghost use Rattle.lvm_vol.specs.Log.{next_id};
ghost use Rattle.lvm_session.specs.declared.open.Power.TheVariants as power;
ghost use Rattle.lvm_session.specs.Asking.{IsAsking};
ghost use Rattle.lvm_session.specs.Calls.{ask_fault, has_numbers, submitted};
ghost use Rattle.lvm_driver.specs.passed.Going.{RunsOn};
ghost use Rattle.lvm_session.specs.State.{state_of};
ghost use Rattle.lvm_ranges.specs.Asking.{AskRangeGives, Asks, IsAskedFor, StaysServing, fault_in, has_room, range_fault};
ghost use Rattle.lvm_posts.specs.passed.Raw.{piece_count};
ghost use Rattle.lvm_ranges.specs.Pieces.{Submits, piece_ask, with_piece};

use crate::refusal::AskRangeFault;
use lvm_disk::Shelf;
use lvm_driver::Driver;
use lvm_driver::below::partition_blocks;
use lvm_num::{BLOCK_BYTES, SCRIPT_CLIENT, volume_of};
use lvm_path::Ask;
use lvm_posts::below::piece_end;
use lvm_posts::{Asked, fill_bytes, piece_count};

const BLOCK: u64 = BLOCK_BYTES as u64;

// The entries of a request: that it has begun, has landed, and was taken.
const ENTRIES: u64 = 3;

// Whether more than 65,535 numbers are left for the stamps of records.
fn has_numbers<S: Shelf>(driver: &Driver<S>) -> bool
    ensures { result ≡ has_numbers driver.now.1 }
{
    driver.numbers_left() >= 65_536
}

// Whether the history has room for a range of so many pieces.
fn has_room<S: Shelf>(driver: &Driver<S>, at: u64, count: u32, pieces: u32) -> bool
    requires { pieces ≡ piece_count at count }
    ensures { result ≡ has_room driver.now.1 at count }
{
    let history = driver.history();
    u64::from(history.spare_entries()) >= ENTRIES * u64::from(pieces)
        && history.spare_bytes() >= BLOCK * u64::from(count)
        && has_numbers(driver)
}

// Why a range of a volume of so many blocks isn't asked for.
fn fault_in<S: Shelf>(driver: &Driver<S>, at: u64, count: u32, blocks: u64) -> Option<AskRangeFault>
    requires some { 1 ≤ count }
    ensures { result ≡ fault_in driver.now.1 at count blocks }
{
    if blocks.saturating_sub(at) < u64::from(count) {
        return Some(AskRangeFault::OutOfRange { blocks });
    }
    let pieces = piece_count(at, count);
    let held = driver.open();
    if u64::from(driver.most_open()) < u64::from(held) + u64::from(pieces) {
        Some(AskRangeFault::TableFull { held })
    } else if has_room(driver, at, count, pieces) {
        None
    } else {
        Some(AskRangeFault::HistoryFull)
    }
}

// Why a range isn't asked for, in the order of `AskRangeFault`.
fn range_fault<S: Shelf>(driver: &Driver<S>, lv: u16, at: u64, count: u32) -> Option<AskRangeFault>
    requires { 1 ≤ count }
    ensures { result ≡ range_fault driver.now.1 lv at count }
{
    let group = driver.descriptor();
    match volume_of(group, lv) {
        None => Some(AskRangeFault::NoVolume),
        Some(row) => {
            let blocks = partition_blocks(group.mib) * u64::from(row.lps);
            fault_in(driver, at, count, blocks)
        }
    }
}

// Submits a request that nothing is against.
fn submit<S: Shelf>(driver: &mut Driver<S>, ask: Ask, bytes: Option<&[u8]>) -> u64
    requires on { driver.old.1.power ≡ power.On }
    requires may { ask_fault driver.old.1 ask ≡ None }
    requires asks { IsAsking ask (option_copied bytes) }
    ensures shelf { driver.new.0 ≡ driver.old.0 }
    ensures id { result ≡ next_id driver.old.1.history }
    ensures is { driver.new.1 ≡ submitted driver.old.1 1 ask (option_copied bytes.entry) }
    ensures runs { RunsOn (state_of S.device driver.old) (state_of S.device driver.new) }
{
    match driver.submit(SCRIPT_CLIENT, ask, bytes) {
        Ok(id) => id,
        Err(_) => unreachable!(),
    }
}

// Submits a piece of the range that begins at `at`.
fn submit_piece<S: Shelf>(
    driver: &mut Driver<S>,
    lv: u16,
    at: u64,
    from: u64,
    count: u32,
    write: Option<u64>,
    bytes: &mut Vec<u8>,
) -> u64
    requires on { driver.old.1.power ≡ power.On }
    requires may { ask_fault driver.old.1 (piece_ask write lv from count) ≡ None }
    requires some { 1 ≤ count }
    requires group { from % 256 + count ≤ 256 }
    requires last { from + count < 2 ^ 64 }
    requires behind { at ≤ from }
    requires near { from < at + 2 ^ 32 }
    requires room { 131072 ≤ vec_capacity bytes.old }
    ensures shelf { driver.new.0 ≡ driver.old.0 }
    ensures id { result ≡ next_id driver.old.1.history }
    ensures is { driver.new.1 ≡ with_piece write lv at from count driver.old.1 }
    ensures runs { RunsOn (state_of S.device driver.old) (state_of S.device driver.new) }
    ensures room { 131072 ≤ vec_capacity bytes.new }
{
    match write {
        Some(word) => {
            fill_bytes(bytes, word, from - at, count);
            let ask = Ask::Write {
                lv,
                at: from,
                count,
            };
            submit(driver, ask, Some(bytes.as_slice()))
        }
        None => {
            let ask = Ask::Read {
                lv,
                at: from,
                count,
            };
            submit(driver, ask, None)
        }
    }
}

// Submits the pieces of a range that nothing is against, and answers the number of the last.
fn submit_pieces<S: Shelf>(
    driver: &mut Driver<S>,
    lv: u16,
    at: u64,
    count: u32,
    write: Option<u64>,
    bytes: &mut Vec<u8>,
) -> u64
    requires on { driver.old.1.power ≡ power.On }
    requires some { 1 ≤ count }
    requires most { count ≤ 4096 }
    requires may { range_fault driver.old.1 lv at count ≡ None }
    requires last { at + count < 2 ^ 64 }
    requires room { 131072 ≤ vec_capacity bytes.old }
    ensures shelf { driver.new.0 ≡ driver.old.0 }
    ensures id { result + 1 ≡ next_id driver.old.1.history + piece_count at count }
    ensures submits { Submits write lv at (at + count) driver.old.1 (at + count) (piece_count at count) driver.new.1 }
    ensures on { driver.new.1.power ≡ power.On }
    ensures runs { RunsOn (state_of S.device driver.old) (state_of S.device driver.new) }
    ensures room { 131072 ≤ vec_capacity bytes.new }
{
    let end = at + u64::from(count);
    let mut from = at;
    let mut last = 0;
    while from < end {
        let to = piece_end(from, end);
        last = submit_piece(driver, lv, at, from, (to - from) as u32, write, bytes);
        from = to;
    }
    last
}

// Asks for a range that nothing is against.
fn ask_whole<S: Shelf>(
    driver: &mut Driver<S>,
    lv: u16,
    at: u64,
    count: u32,
    write: Option<u64>,
    bytes: &mut Vec<u8>,
) -> Asked
    requires on { driver.old.1.power ≡ power.On }
    requires some { 1 ≤ count }
    requires most { count ≤ 4096 }
    requires may { range_fault driver.old.1 lv at count ≡ None }
    requires fits { at + count < 2 ^ 40 }
    requires room { 131072 ≤ vec_capacity bytes.old }
    ensures asks { Asks write lv at count driver.old.1 driver.new.1 result }
    ensures asked { IsAskedFor write count driver.old.1 driver.new.1 result }
    ensures leaves { StaysServing S.device driver.old driver.new }
    ensures room { 131072 ≤ vec_capacity bytes.new }
{
    driver.is_sound();
    let mib = driver.descriptor().mib;
    let place = driver.history().block_count();
    let pieces = piece_count(at, count);
    let last = submit_pieces(driver, lv, at, count, write, bytes);
    Asked {
        first: last - u64::from(pieces - 1),
        pieces,
        at,
        mib,
        place,
    }
}

// A range that nothing is against lies in a volume.
fn fits<S: Shelf>(driver: &Driver<S>, lv: u16, at: u64, count: u32)
    requires on { driver.now.1.power ≡ power.On }
    requires may { range_fault driver.now.1 lv at count ≡ None }
    ensures { at + count < 2 ^ 40 }
{
    let _ = driver.descriptor();
}

/// Asks for a range of a volume, in pieces that end at multiples of 256 blocks, each a request of client 1: a write
/// where a word is given, with which the first block is filled, and each other with the next, wrapping. All pieces are
/// submitted, or none. No memory is taken: the bytes have room for a whole piece.
///
/// # Errors
///
/// Those of `AskRangeFault`, in their order; nothing changes then.
pub fn ask_range<S: Shelf>(
    driver: &mut Driver<S>,
    lv: u16,
    at: u64,
    count: u32,
    write: Option<u64>,
    bytes: &mut Vec<u8>,
) -> Result<Asked, AskRangeFault>
    requires on { driver.old.1.power ≡ power.On }
    requires some { 1 ≤ count }
    requires most { count ≤ 4096 }
    requires room { 131072 ≤ vec_capacity bytes.old }
    ensures gives { AskRangeGives write lv at count driver.old.1 driver.new.1 result }
    ensures asked { IfOk result (IsAskedFor write count driver.old.1 driver.new.1) }
    // whatever the answer
    ensures leaves { StaysServing S.device driver.old driver.new }
    ensures room { 131072 ≤ vec_capacity bytes.new }
{
    match range_fault(driver, lv, at, count) {
        Some(why) => Err(why),
        None => {
            fits(driver, lv, at, count);
            Ok(ask_whole(driver, lv, at, count, write, bytes))
        }
    }
}
