//! Whether a block may have a value, found by going along two chains of a history's rows from the newest back: that of
//! the block's track group, and that of what shapes volumes.
//!
//! Which writes are open at a row is found along the same chains: one is, where the way back from the row meets its
//! beginning before a row that ends all writes of the block, and it landed behind the row or not at all.
ghost use Rattle.std.specs.Prelude.{◌≡◌, ◌<◌, ◌≤◌, ◌+◌, ◌-◌, ◌/◌, ◌↔◌, ◌^◌, ◌&&◌, ℕ, IsTrue, true, not, length, max, take, slice_index_or};
ghost use Rattle.lvm_vol.specs.May.{is_off, known, May};
ghost use Rattle.lvm_allowed.specs.Rows.{facts_of};
ghost use Rattle.lvm_allowed.specs.Seen.{id_of, is_any_open, is_opening, row_source};
ghost use Rattle.lvm_allowed.specs.Told.{told_read, told_row};
ghost use Rattle.lvm_chains.specs.Places.{chain_of, newest, IsIndexOf};
ghost use Rattle.lvm_chains.specs.Along.{ArePlaces, IsInTurn, is_closing, landed_among, loose_end, loose_told};

use crate::index::{Index, SHAPING, chain_of};
use lvm_allowed::{
    Ask, Block, Row, Sought, Told, ask_or_none, brings, either, id_of, is_over, is_zeros, off_by,
    opens, source_of, told_by_end,
};
use lvm_vol::{Outcome, Vol};

/// The places of the newest rows of the two chains, from 1; 0 where there is none.
#[derive(Clone, Copy)]
pub struct Places {
    pub own: u32,
    pub shaping: u32,
}

/// Where to begin.
fn newest_of(index: &Index, vol: Vol, group: u64) -> Places
    requires { group < 2 ^ 56 }
    ensures { ArePlaces index.now vol group (length index.now.chains) result }
{
    Places {
        own: index.newest(chain_of(vol, group), index.len()),
        shaping: index.newest(SHAPING, index.len()),
    }
}

/// The newer of the two places.
fn newer(places: Places) -> u32
    ensures { result ≡ max places.own places.shaping }
{
    places.own.max(places.shaping)
}

/// The newest before a row.
fn older(index: &Index, vol: Vol, group: u64, among: u32, places: Places) -> Places
    requires group { group < 2 ^ 56 }
    requires among { among < length index.now.chains }
    requires places { ArePlaces index.now vol group (among + 1) places }
    ensures { ArePlaces index.now vol group among result }
{
    Places {
        own: index.older(chain_of(vol, group), places.own, among),
        shaping: index.older(SHAPING, places.shaping, among),
    }
}

/// The newest before a row of the volume of which it takes the block's value: only a split leads to the chain of another.
fn followed(
    index: &Index,
    row: &Row,
    vol: Vol,
    source: Vol,
    group: u64,
    among: u32,
    places: Places,
) -> Places
    requires group { group < 2 ^ 56 }
    requires among { among ≤ length index.now.chains }
    requires places { ArePlaces index.now vol group among places }
    requires source { source ≡ row_source row.now vol }
    ensures { ArePlaces index.now source group among result }
{
    match *row {
        Row::Split { .. } => Places {
            own: index.newest(chain_of(source, group), among),
            shaping: places.shaping,
        },
        _ => places,
    }
}

/// Whether the row ends every write of the block that is open.
fn closes(row: &Row, block: Block) -> bool
    ensures { result ≡ is_closing block.vol block.number row.now }
{
    match *row {
        Row::Cut => true,
        Row::Making { lv, blocks, .. } => Vol::Lv(lv) == block.vol && block.number < blocks,
        Row::Split { lv, .. } => Vol::Lv(lv) == block.vol,
        Row::Removed { vol: gone } => gone == block.vol,
        _ => false,
    }
}

/// Whether the request of this number landed among the first so many rows, behind a place.
fn has_landed_among(index: &Index, id: u64, place: u32, among: u32) -> bool
    ensures { result ≡ landed_among index.now id place among }
{
    let landed = index.step(id).landed;
    place < landed && landed <= among
}

/// Whether the row at a place begins a write that is looked for and hasn't landed among the first so many rows.
fn opens_unlanded(
    index: &Index,
    row: &Row,
    asks: &[Ask],
    blocks: &[[u8; 512]],
    block: Block,
    value: &[u8; 512],
    sought: Sought,
    place: u32,
    among: u32,
) -> bool
    ensures { let opens = is_opening sought asks.now blocks.now block.vol block.number value.now row.now in
        result ≡ (opens && not (landed_among index.now (id_of row.now) place among)) }
{
    opens(row, asks, blocks, block, value, sought)
        && !has_landed_among(index, id_of(row), place, among)
}

/// Whether one of the writes that are looked for is open at the block after the first so many rows.
fn is_open_along(
    rows: &[Row],
    asks: &[Ask],
    blocks: &[[u8; 512]],
    index: &Index,
    block: Block,
    value: &[u8; 512],
    sought: Sought,
    places: Places,
    among: u32,
) -> bool
    requires indexed { IsIndexOf index.now asks.now rows.now }
    requires in_turn { IsInTurn rows.now }
    requires among { among ≤ length rows.now }
    requires places { ArePlaces index.now block.vol (block.number / 256) among places }
    ensures { let is_any = is_any_open sought asks.now blocks.now block.vol block.number value.now in
        result ≡ is_any (take among rows.now) }
{
    let group = block.number / 256;
    let mut at = places;
    let mut place = newer(at);
    while place > 0 {
        let row = &rows[(place - 1) as usize];
        if opens_unlanded(index, row, asks, blocks, block, value, sought, place, among) {
            return true;
        }
        if closes(row, block) {
            return false;
        }
        at = older(index, block.vol, group, place - 1, at);
        place = newer(at);
    }
    false
}

/// Whether the mode of the block's volume is off after the first so many rows. Goes along what shapes volumes alone.
fn is_off_along(
    rows: &[Row],
    asks: &[Ask],
    blocks: &[[u8; 512]],
    index: &Index,
    block: Block,
    shaping: u32,
    among: u32,
) -> bool
    requires indexed { IsIndexOf index.now asks.now rows.now }
    requires among { among ≤ length rows.now }
    requires shaping { shaping ≡ newest 4096 index.now.chains among }
    ensures { (run : ℕ) → let facts = facts_of run asks.now blocks.now (take among rows.now) in
        result ≡ is_off (known facts block.vol block.number).mode }
{
    let mut vol = block.vol;
    let mut place = shaping;
    while place > 0 {
        let row = &rows[(place - 1) as usize];
        let there = Block {
            vol,
            number: block.number,
        };
        if let Some(off) = off_by(row, there) {
            return off;
        }
        vol = source_of(row, vol);
        place = index.older(SHAPING, place, place - 1);
    }
    false
}

fn loosened_by_end(outcome: Outcome, started: bool) -> Option<bool>
    ensures { result ≡ loose_end outcome started }
{
    match outcome {
        Outcome::Done => Some(false),
        Outcome::Off | Outcome::Dark if started => Some(true),
        _ => None,
    }
}

/// What a row makes of whether the block is loose, in mode off; nothing where it leaves that as it was.
fn loosened_by(
    rows: &[Row],
    row: &Row,
    asks: &[Ask],
    blocks: &[[u8; 512]],
    index: &Index,
    block: Block,
    value: &[u8; 512],
    places: Places,
    among: u32,
) -> Option<bool>
    requires indexed { IsIndexOf index.now asks.now rows.now }
    requires in_turn { IsInTurn rows.now }
    requires among { among ≤ length rows.now }
    requires places { ArePlaces index.now block.vol (block.number / 256) among places }
    ensures { let told = loose_told (take among rows.now) asks.now blocks.now in
        result ≡ told block.vol block.number value.now row.now }
{
    match *row {
        Row::Making {
            lv,
            blocks: size,
            ..
        } if Vol::Lv(lv) == block.vol && block.number < size => Some(false),
        Row::Removed { vol: gone } if gone == block.vol => Some(false),
        Row::Landed {
            id,
            outcome,
            started,
        } => {
            let ask = ask_or_none(asks, id);
            if !is_over(&ask, block) {
                None
            } else if !ask.write {
                None
            } else if is_open_along(
                rows,
                asks,
                blocks,
                index,
                block,
                value,
                Sought::Request(id),
                places,
                among,
            ) {
                loosened_by_end(outcome, started)
            } else {
                None
            }
        }
        Row::Cut => {
            if is_open_along(
                rows,
                asks,
                blocks,
                index,
                block,
                value,
                Sought::Any,
                places,
                among,
            ) {
                Some(true)
            } else {
                None
            }
        }
        _ => None,
    }
}

/// Whether two reads of the block may differ after the first so many rows, where its volume's mode is off.
fn is_loosened_along(
    rows: &[Row],
    asks: &[Ask],
    blocks: &[[u8; 512]],
    index: &Index,
    block: Block,
    value: &[u8; 512],
    places: Places,
    among: u32,
) -> bool
    requires indexed { IsIndexOf index.now asks.now rows.now }
    requires in_turn { IsInTurn rows.now }
    requires among { among ≤ length rows.now }
    requires places { ArePlaces index.now block.vol (block.number / 256) among places }
    ensures { (run : ℕ) → let k = known (facts_of run asks.now blocks.now (take among rows.now)) block.vol block.number in
        is_off k.mode ≡ true → result ≡ k.loose }
{
    let group = block.number / 256;
    let mut vol = block.vol;
    let mut at = places;
    let mut place = newer(at);
    while place > 0 {
        let row = &rows[(place - 1) as usize];
        let before = older(index, vol, group, place - 1, at);
        let there = Block {
            vol,
            number: block.number,
        };
        if let Some(loose) = loosened_by(
            rows,
            row,
            asks,
            blocks,
            index,
            there,
            value,
            before,
            place - 1,
        ) {
            return loose;
        }
        let source = source_of(row, vol);
        at = followed(index, row, vol, source, group, place - 1, before);
        vol = source;
        place = newer(at);
    }
    false
}

/// Whether two reads of the block may differ after the first so many rows. Where its volume's mode isn't off they never
/// do.
fn is_loose_along(
    rows: &[Row],
    asks: &[Ask],
    blocks: &[[u8; 512]],
    index: &Index,
    block: Block,
    value: &[u8; 512],
    places: Places,
    among: u32,
) -> bool
    requires indexed { IsIndexOf index.now asks.now rows.now }
    requires in_turn { IsInTurn rows.now }
    requires among { among ≤ length rows.now }
    requires places { ArePlaces index.now block.vol (block.number / 256) among places }
    ensures { (run : ℕ) → let facts = facts_of run asks.now blocks.now (take among rows.now) in
        result ≡ (known facts block.vol block.number).loose }
{
    if !is_off_along(rows, asks, blocks, index, block, places.shaping, among) {
        return false;
    }
    is_loosened_along(rows, asks, blocks, index, block, value, places, among)
}

fn told_by_read(
    rows: &[Row],
    outcome: Outcome,
    same: bool,
    asks: &[Ask],
    blocks: &[[u8; 512]],
    index: &Index,
    block: Block,
    value: &[u8; 512],
    places: Places,
    among: u32,
) -> Told
    requires indexed { IsIndexOf index.now asks.now rows.now }
    requires in_turn { IsInTurn rows.now }
    requires among { among ≤ length rows.now }
    requires places { ArePlaces index.now block.vol (block.number / 256) among places }
    ensures { (run : ℕ) → let k = known (facts_of run asks.now blocks.now (take among rows.now)) block.vol block.number in
        result ≡ told_read k.loose outcome same }
{
    match outcome {
        Outcome::Got => {
            if is_loose_along(rows, asks, blocks, index, block, value, places, among) {
                Told::Also(false)
            } else {
                Told::Fixed(same)
            }
        }
        _ => Told::Also(false),
    }
}

/// What a row tells, before which so many rows stand.
fn told_by(
    rows: &[Row],
    row: &Row,
    asks: &[Ask],
    blocks: &[[u8; 512]],
    index: &Index,
    block: Block,
    value: &[u8; 512],
    places: Places,
    among: u32,
) -> Told
    requires indexed { IsIndexOf index.now asks.now rows.now }
    requires in_turn { IsInTurn rows.now }
    requires among { among ≤ length rows.now }
    requires places { ArePlaces index.now block.vol (block.number / 256) among places }
    ensures { (run : ℕ) → let before = take among rows.now in
        let k = known (facts_of run asks.now blocks.now before) block.vol block.number in
        result ≡ told_row k.loose before asks.now blocks.now block.vol block.number value.now row.now }
{
    match *row {
        Row::Making {
            lv,
            blocks: size,
            ..
        } if Vol::Lv(lv) == block.vol && block.number < size => Told::Fixed(is_zeros(value)),
        Row::Removed { vol: gone } if gone == block.vol => Told::Fixed(true),
        Row::Landed {
            id,
            outcome,
            started,
        } => {
            let ask = ask_or_none(asks, id);
            if !is_over(&ask, block) {
                Told::Also(false)
            } else if !ask.write {
                let same = brings(&ask, blocks, block, value);
                told_by_read(
                    rows, outcome, same, asks, blocks, index, block, value, places, among,
                )
            } else if is_open_along(
                rows,
                asks,
                blocks,
                index,
                block,
                value,
                Sought::Request(id),
                places,
                among,
            ) {
                told_by_end(outcome, started, brings(&ask, blocks, block, value))
            } else {
                Told::Also(false)
            }
        }
        Row::Cut => Told::Also(is_open_along(
            rows,
            asks,
            blocks,
            index,
            block,
            value,
            Sought::Value,
            places,
            among,
        )),
        _ => Told::Also(false),
    }
}

/// Whether the block of the volume may have the value after the rows, of which this is the index.
pub fn may_have_along(
    rows: &[Row],
    asks: &[Ask],
    blocks: &[[u8; 512]],
    index: &Index,
    block: Block,
    value: &[u8; 512],
) -> bool
    requires indexed { IsIndexOf index.now asks.now rows.now }
    requires in_turn { IsInTurn rows.now }
    ensures { (run : ℕ) → let facts = facts_of run asks.now blocks.now rows.now in
        IsTrue result ↔ May (known facts block.vol block.number) value.now }
{
    let group = block.number / 256;
    let mut vol = block.vol;
    let mut also = false;
    let mut places = newest_of(index, vol, group);
    let mut place = newer(places);
    while place > 0 {
        let row = &rows[(place - 1) as usize];
        let before = older(index, vol, group, place - 1, places);
        let there = Block {
            vol,
            number: block.number,
        };
        match told_by(
            rows,
            row,
            asks,
            blocks,
            index,
            there,
            value,
            before,
            place - 1,
        ) {
            Told::Fixed(allowed) => return either(allowed, also),
            Told::Also(allowed) => also = either(allowed, also),
        }
        let source = source_of(row, vol);
        places = followed(index, row, vol, source, group, place - 1, before);
        vol = source;
        place = newer(places);
    }
    true
}
