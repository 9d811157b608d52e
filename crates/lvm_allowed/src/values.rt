//! Whether a block may have a value, found by looking through a history's rows.
//!
//! The rows are followed from the first to the last. Of the values that the block may have only this is
//! kept: whether they are known, and whether the one asked for is among them. Which writes are open is
//! found by looking back, so that nothing is stored.
ghost use Rattle.std.specs.Prelude.{◌≡◌, ◌↔◌, ℕ, ◌&&◌, ◌||◌, ◌==◌, not, IsTrue, true, false, fold};
ghost use Rattle.std.specs.List.{list_any};
ghost use Rattle.std.specs.Str.{bytes_eq};
ghost use Rattle.lvm_vol.specs.passed.Num.{zero_sector};
ghost use Rattle.lvm_vol.specs.Facts.{block_of};
ghost use Rattle.lvm_vol.specs.May.{is_off, known, May};
ghost use Rattle.lvm_allowed.specs.Rows.{ask_of, blocks_at, facts_of};
ghost use Rattle.lvm_allowed.specs.Seen.{is_over_ask, is_ending, is_opening, id_of, is_any_open, row_source, origin_of, seen_of, seen_ended, seen_read, seen_step};

use crate::row::{Ask, Row};
use lvm_vol::below::Mode;
use lvm_vol::{Outcome, Vol};

/// What is known of a block, as far as one value goes.
#[derive(Clone, Copy)]
pub struct Seen {
    /// Whether its values are known.
    pub known: bool,
    /// Whether they are known and this value is one of them.
    pub allowed: bool,
    pub loose: bool,
    /// Whether the mode of its volume is off.
    pub off: bool,
}

/// A block of a disk or of a volume.
#[derive(Clone, Copy)]
pub struct Block {
    pub vol: Vol,
    pub number: u64,
}

/// Which of the open writes of a block are looked for.
#[derive(Clone, Copy)]
pub enum Sought {
    /// The request of this number.
    Request(u64),
    Any,
    /// One that brings the value.
    Value,
}

const NO_ASK: Ask = Ask {
    client: 0,
    vol: Vol::Disk(0),
    at: 0,
    count: 0,
    write: false,
    place: 0,
};

/// The request of this number; if there is none, one of no blocks.
pub fn ask_or_none(asks: &[Ask], id: u64) -> Ask
    ensures { result ≡ ask_of asks.now id }
{
    match asks.get(id.saturating_sub(1) as usize) {
        Some(ask) => *ask,
        None => NO_ASK,
    }
}

/// Whether the request is over the block of the volume.
pub fn is_over(ask: &Ask, block: Block) -> bool
    ensures { result ≡ is_over_ask ask.now block.vol block.number }
{
    ask.vol == block.vol && ask.at <= block.number && block.number - ask.at < u64::from(ask.count)
}

/// Whether the request brings this value to the block, or has got it there.
pub fn brings(ask: &Ask, blocks: &[[u8; 512]], block: Block, value: &[u8; 512]) -> bool
    requires { is_over_ask ask.now block.vol block.number ≡ true }
    ensures { result ≡ bytes_eq (block_of (blocks_at blocks.now ask.now) ask.now.at block.number) value.now }
{
    let k = ask.place.saturating_add(block.number - ask.at);
    match blocks.get(k as usize) {
        Some(data) => data.as_slice() == value.as_slice(),
        None => false,
    }
}

/// Whether the row ends the write of this number, if it is open at the block.
fn ends(row: &Row, id: u64, block: Block) -> bool
    ensures { result ≡ is_ending id block.vol block.number row.now }
{
    match *row {
        Row::Landed { id: landed, .. } => landed == id,
        Row::Cut => true,
        Row::Making { lv, blocks, .. } => Vol::Lv(lv) == block.vol && block.number < blocks,
        Row::Split { lv, .. } => Vol::Lv(lv) == block.vol,
        Row::Removed { vol: gone } => gone == block.vol,
        _ => false,
    }
}

/// Whether one of the rows ends the write of this number.
fn is_ended(rows: &[Row], id: u64, block: Block) -> bool
    ensures { result ≡ list_any (is_ending id block.vol block.number) rows.now }
{
    rows.iter().any(|row| ends(row, id, block))
}

/// Whether the row begins a write of the block, one of those that are looked for.
pub fn opens(
    row: &Row,
    asks: &[Ask],
    blocks: &[[u8; 512]],
    block: Block,
    value: &[u8; 512],
    sought: Sought,
) -> bool
    ensures { result ≡ is_opening sought asks.now blocks.now block.vol block.number value.now row.now }
{
    match *row {
        Row::Begun { id } => {
            let ask = ask_or_none(asks, id);
            ask.write
                && is_over(&ask, block)
                && match sought {
                    Sought::Request(sought) => id == sought,
                    Sought::Any => true,
                    Sought::Value => brings(&ask, blocks, block, value),
                }
        }
        _ => false,
    }
}

/// The number of the request that the row is about; 0 where it is about none.
pub fn id_of(row: &Row) -> u64
    ensures { result ≡ id_of row.now }
{
    match *row {
        Row::Begun { id } | Row::Landed { id, .. } | Row::Taken { id, .. } => id,
        _ => 0,
    }
}

/// Whether one of the writes that are looked for is open at the block after the rows.
pub(crate) fn is_open_after(
    rows: &[Row],
    asks: &[Ask],
    blocks: &[[u8; 512]],
    block: Block,
    value: &[u8; 512],
    sought: Sought,
) -> bool
    ensures { result ≡ is_any_open sought asks.now blocks.now block.vol block.number value.now rows.now }
{
    for (k, row) in rows.iter().enumerate() {
        if opens(row, asks, blocks, block, value, sought)
            && !is_ended(&rows[k + 1..], id_of(row), block)
        {
            return true;
        }
    }
    false
}

/// Of which volume the block's value was before the row.
pub fn source_of(row: &Row, vol: Vol) -> Vol
    ensures { result ≡ row_source row.now vol }
{
    match *row {
        Row::Split { from, lv } if Vol::Lv(lv) == vol => Vol::Lv(from),
        _ => vol,
    }
}

/// Of which volume the block's value was before all the rows.
fn origin(rows: &[Row], vol: Vol) -> Vol
    ensures { result ≡ origin_of rows.now vol }
{
    rows.iter().rev().fold(vol, |vol, row| source_of(row, vol))
}

/// The block has this value alone, or another one alone.
fn only(seen: Seen, same: bool) -> Seen
    ensures { result ≡ record seen { known = true; allowed = same } }
{
    Seen {
        known: true,
        allowed: same,
        ..seen
    }
}

/// An open write has ended, which brings the value or another.
fn after_end(seen: Seen, outcome: Outcome, started: bool, same: bool) -> Seen
    ensures { result ≡ seen_ended seen outcome started same }
{
    match outcome {
        Outcome::Done => Seen {
            loose: false,
            ..only(seen, same)
        },
        Outcome::Lost => Seen {
            allowed: seen.allowed || (seen.known && same),
            ..seen
        },
        Outcome::Off | Outcome::Dark => Seen {
            allowed: seen.allowed || (started && seen.known && same),
            loose: seen.loose || (started && seen.off),
            ..seen
        },
        Outcome::Got | Outcome::ReadFailed | Outcome::NoFresh => seen,
    }
}

/// A read has ended, which got the value or another.
fn after_read(seen: Seen, outcome: Outcome, same: bool) -> Seen
    ensures { result ≡ seen_read seen outcome same }
{
    match outcome {
        Outcome::Got if !seen.loose => only(seen, same),
        _ => seen,
    }
}

/// Whether the value is zeros.
pub fn is_zeros(value: &[u8; 512]) -> bool
    ensures { result ≡ bytes_eq zero_sector value.now }
{
    [0; 512].as_slice() == value.as_slice()
}

pub(crate) fn is_off(mode: Mode) -> bool
    ensures { result ≡ is_off mode }
{
    matches!(mode, Mode::Off)
}

/// What is seen of the block after the row, before which these rows stand.
fn after_row(
    seen: Seen,
    before: &[Row],
    row: &Row,
    asks: &[Ask],
    blocks: &[[u8; 512]],
    block: Block,
    value: &[u8; 512],
) -> Seen
    ensures { let step = seen_step seen before.now asks.now blocks.now in
        result ≡ step block.vol block.number value.now row.now }
{
    match *row {
        Row::Making { lv, blocks, mode } if Vol::Lv(lv) == block.vol && block.number < blocks =>
            Seen {
                known: true,
                allowed: is_zeros(value),
                loose: false,
                off: is_off(mode),
            },
        Row::Removed { vol: gone } if gone == block.vol => Seen {
            known: false,
            allowed: false,
            loose: false,
            off: seen.off,
        },
        Row::Landed {
            id,
            outcome,
            started,
        } => {
            let ask = ask_or_none(asks, id);
            if !is_over(&ask, block) {
                seen
            } else if !ask.write {
                after_read(seen, outcome, brings(&ask, blocks, block, value))
            } else if is_open_after(before, asks, blocks, block, value, Sought::Request(id)) {
                after_end(seen, outcome, started, brings(&ask, blocks, block, value))
            } else {
                seen
            }
        }
        Row::Cut => Seen {
            allowed: seen.allowed
                || (seen.known && is_open_after(before, asks, blocks, block, value, Sought::Value)),
            loose: seen.loose
                || (seen.off && is_open_after(before, asks, blocks, block, value, Sought::Any)),
            ..seen
        },
        _ => seen,
    }
}

/// Of which volume the block's value was after the row, of which it was `here` before it: only a split
/// takes it from another one.
fn followed(here: Vol, row: &Row, rest: &[Row], vol: Vol) -> Vol
    requires { here ≡ row_source row.now (origin_of rest.now vol) }
    ensures { result ≡ origin_of rest.now vol }
{
    match *row {
        Row::Split { .. } => origin(rest, vol),
        _ => here,
    }
}

/// What is seen of the block of the volume after the rows.
pub(crate) fn seen_after(
    rows: &[Row],
    asks: &[Ask],
    blocks: &[[u8; 512]],
    block: Block,
    value: &[u8; 512],
) -> Seen
    ensures { (run : ℕ) → let facts = facts_of run asks.now blocks.now rows.now in
        result ≡ seen_of (known facts block.vol block.number) value.now }
{
    let mut here = origin(rows, block.vol);
    let mut seen = Seen {
        known: false,
        allowed: false,
        loose: false,
        off: false,
    };
    for (k, row) in rows.iter().enumerate() {
        here = followed(here, row, &rows[k + 1..], block.vol);
        let there = Block {
            vol: here,
            number: block.number,
        };
        seen = after_row(seen, &rows[..k], row, asks, blocks, there, value);
    }
    seen
}

/// The same as `may_have`, row by row from the first to the last, as the values are defined. Slow: what the other is
/// compared with.
pub fn is_allowed(
    rows: &[Row],
    asks: &[Ask],
    blocks: &[[u8; 512]],
    block: Block,
    value: &[u8; 512],
) -> bool
    ensures { (run : ℕ) → let facts = facts_of run asks.now blocks.now rows.now in
        IsTrue result ↔ May (known facts block.vol block.number) value.now }
{
    allows(seen_after(rows, asks, blocks, block, value))
}

fn allows(seen: Seen) -> bool
    ensures { result ≡ (not seen.known || seen.allowed) }
{
    !seen.known || seen.allowed
}
