//! Whether a block may have a value, found by looking at a history's rows from the newest back, up to the first that
//! fixes the block's values.
//!
//! A write that is open stays so past such a row: where a cut is newer, which writes were open at it is looked for
//! among all the rows before it.
ghost use Rattle.std.specs.Prelude.{◌≡◌, ◌↔◌, ℕ, ◌||◌, IsTrue};
ghost use Rattle.lvm_vol.specs.May.{is_off, known, May};
ghost use Rattle.lvm_allowed.specs.Rows.{facts_of};
ghost use Rattle.lvm_allowed.specs.Told.{off_told, told_end, told_read, told_row};

use crate::row::{Ask, Row};
use crate::values::{
    Block, Sought, ask_or_none, brings, is_off, is_open_after, is_over, is_zeros, seen_after,
    source_of,
};
use lvm_vol::{Outcome, Vol};

/// What a row tells of whether the value is allowed after it.
#[derive(Clone, Copy)]
pub enum Told {
    /// Whether it is, whatever stands before.
    Fixed(bool),
    /// It is where it was before, and where this is so.
    Also(bool),
}

/// What the end of an open write tells, which brings the value or another.
pub fn told_by_end(outcome: Outcome, started: bool, same: bool) -> Told
    ensures { result ≡ told_end outcome started same }
{
    match outcome {
        Outcome::Done => Told::Fixed(same),
        Outcome::Lost => Told::Also(same),
        Outcome::Off | Outcome::Dark => Told::Also(started && same),
        Outcome::Got | Outcome::ReadFailed | Outcome::NoFresh => Told::Also(false),
    }
}

/// What a row tells, before which these rows stand.
fn told_by(
    before: &[Row],
    row: &Row,
    asks: &[Ask],
    blocks: &[[u8; 512]],
    block: Block,
    value: &[u8; 512],
) -> Told
    ensures { (run : ℕ) → let k = known (facts_of run asks.now blocks.now before.now) block.vol block.number in
        result ≡ told_row k.loose before.now asks.now blocks.now block.vol block.number value.now row.now }
{
    match *row {
        Row::Making {
            lv,
            blocks: size,
            ..
        } if Vol::Lv(lv) == block.vol && block.number < size => Told::Fixed(is_zeros(value)),
        Row::Removed { vol: gone } if gone == block.vol => Told::Fixed(true),
        Row::Landed {
            id,
            outcome,
            started,
        } => {
            let ask = ask_or_none(asks, id);
            if !is_over(&ask, block) {
                Told::Also(false)
            } else if !ask.write {
                let same = brings(&ask, blocks, block, value);
                told_by_read(before, outcome, same, asks, blocks, block, value)
            } else if is_open_after(before, asks, blocks, block, value, Sought::Request(id)) {
                told_by_end(outcome, started, brings(&ask, blocks, block, value))
            } else {
                Told::Also(false)
            }
        }
        Row::Cut => { Told::Also(is_open_after(before, asks, blocks, block, value, Sought::Value)) }
        _ => Told::Also(false),
    }
}

fn told_by_read(
    before: &[Row],
    outcome: Outcome,
    same: bool,
    asks: &[Ask],
    blocks: &[[u8; 512]],
    block: Block,
    value: &[u8; 512],
) -> Told
    ensures { (run : ℕ) → let k = known (facts_of run asks.now blocks.now before.now) block.vol block.number in
        result ≡ told_read k.loose outcome same }
{
    match outcome {
        Outcome::Got => {
            if is_loose(before, asks, blocks, block, value) {
                Told::Also(false)
            } else {
                Told::Fixed(same)
            }
        }
        _ => Told::Also(false),
    }
}

/// Whether two reads of the block may differ after the rows. Where its volume's mode isn't off they never do.
fn is_loose(
    rows: &[Row],
    asks: &[Ask],
    blocks: &[[u8; 512]],
    block: Block,
    value: &[u8; 512],
) -> bool
    ensures { (run : ℕ) → result ≡ (known (facts_of run asks.now blocks.now rows.now) block.vol block.number).loose }
{
    if !is_off_after(rows, asks, blocks, block) {
        return false;
    }
    seen_after(rows, asks, blocks, block, value).loose
}

/// Whether the mode is off with which the row makes the block's volume, if it does.
pub fn off_by(row: &Row, block: Block) -> Option<bool>
    ensures { result ≡ off_told block.vol block.number row.now }
{
    match *row {
        Row::Making { lv, blocks, mode } if Vol::Lv(lv) == block.vol && block.number < blocks => {
            Some(is_off(mode))
        }
        _ => None,
    }
}

/// Whether the mode of the block's volume is off after the rows.
fn is_off_after(rows: &[Row], asks: &[Ask], blocks: &[[u8; 512]], block: Block) -> bool
    ensures { (run : ℕ) → result ≡ is_off (known (facts_of run asks.now blocks.now rows.now) block.vol block.number).mode }
{
    let mut vol = block.vol;
    let mut k = rows.len();
    while k > 0 {
        k -= 1;
        let there = Block {
            vol,
            number: block.number,
        };
        if let Some(off) = off_by(&rows[k], there) {
            return off;
        }
        vol = source_of(&rows[k], vol);
    }
    false
}

/// Whether the block of the volume may have the value after the rows: its values are unknown, or this is one of them.
pub fn may_have(
    rows: &[Row],
    asks: &[Ask],
    blocks: &[[u8; 512]],
    block: Block,
    value: &[u8; 512],
) -> bool
    ensures { (run : ℕ) → let facts = facts_of run asks.now blocks.now rows.now in
        IsTrue result ↔ May (known facts block.vol block.number) value.now }
{
    let mut vol = block.vol;
    let mut also = false;
    let mut k = rows.len();
    while k > 0 {
        k -= 1;
        let there = Block {
            vol,
            number: block.number,
        };
        match told_by(&rows[..k], &rows[k], asks, blocks, there, value) {
            Told::Fixed(allowed) => return either(allowed, also),
            Told::Also(allowed) => also = either(allowed, also),
        }
        vol = source_of(&rows[k], vol);
    }
    true
}

/// Whether one of two holds.
pub fn either(a: bool, b: bool) -> bool
    ensures { result ≡ (a || b) }
{
    a || b
}
