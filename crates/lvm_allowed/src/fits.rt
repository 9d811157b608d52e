//! Whether a history is legal, found by looking through its rows.
ghost use Rattle.std.specs.Prelude.{◌≡◌, ◌↔◌, ℕ, ◌+◌, ◌<◌, ◌==◌, not, ◌&&◌, IsTrue, count_by, true};
ghost use Rattle.std.specs.List.{list_any, list_all};
ghost use Rattle.lvm_vol.specs.Legal.{Fits, Gets, Legal};
ghost use Rattle.lvm_allowed.specs.Rows.{facts_of, fact_of, request_in, ask_of, blocks_at, is_landing, is_taking};
ghost use Rattle.lvm_allowed.specs.declared.row.Row.TheVariants.{Landed};
ghost use Rattle.lvm_vol.specs.Log.{is_got};
ghost use Rattle.lvm_allowed.specs.Fitting.{is_beginning, is_begin, is_earlier_on, is_bounded, is_kind};

use crate::recent::may_have;
use crate::row::{Ask, Row};
use crate::values::{Block, ask_or_none};
use lvm_vol::Outcome;

/// Whether the request of this number has landed.
pub fn has_landed(rows: &[Row], id: u64) -> bool
    ensures { result ≡ list_any (is_landing id) rows.now }
{
    rows.iter().any(|row| matches!(row, Row::Landed { id: landed, .. } if *landed == id))
}

/// Whether the answer of the request of this number is taken.
pub fn is_taken(rows: &[Row], id: u64) -> bool
    ensures { result ≡ list_any (is_taking id) rows.now }
{
    rows.iter().any(|row| matches!(row, Row::Taken { id: taken, .. } if *taken == id))
}

/// Whether the request of this number has begun.
fn has_begun(rows: &[Row], id: u64) -> bool
    ensures { result ≡ list_any (is_beginning id) rows.now }
{
    rows.iter().any(|row| matches!(row, Row::Begun { id: begun } if *begun == id))
}

/// How many requests have begun.
fn begun_count(rows: &[Row]) -> usize
    ensures { result ≡ count_by is_begin rows.now }
{
    rows.iter()
        .filter(|row| matches!(row, Row::Begun { .. }))
        .count()
}

/// Whether no group was varied on at this moment or later.
fn is_latest(rows: &[Row], moment: u64) -> bool
    ensures { result ≡ list_all (is_earlier_on moment) rows.now }
{
    rows.iter().all(|row| !matches!(row, Row::On { moment: other } if *other >= moment))
}

/// Whether a request of this kind may end so.
fn may_end(outcome: Outcome, write: bool, started: bool) -> bool
    ensures { result ≡ is_kind outcome write started }
{
    match outcome {
        Outcome::Done | Outcome::Lost => write,
        Outcome::Got | Outcome::ReadFailed => !write,
        Outcome::NoFresh => !started,
        Outcome::Off | Outcome::Dark => true,
    }
}

fn is_got(outcome: Outcome) -> bool
    ensures { result ≡ is_got outcome }
{
    matches!(outcome, Outcome::Got)
}

/// Whether the read of this number may get, after the rows, what stands at its place: as many blocks as
/// it asked for, each with a value that its block may have.
fn may_get(before: &[Row], id: u64, asks: &[Ask], blocks: &[[u8; 512]]) -> bool
    requires { is_bounded (ask_of asks.now id) ≡ true }
    ensures { (run : ℕ) → let past = facts_of run asks.now blocks.now before.now in
        IsTrue result ↔ Gets past (request_in run asks.now blocks.now id) (blocks_at blocks.now (ask_of asks.now id)) }
{
    let ask = ask_or_none(asks, id);
    if (blocks.len() as u64).saturating_sub(ask.place) < u64::from(ask.count) {
        return false;
    }
    for k in 0..ask.count {
        let place = (ask.place + u64::from(k)) as usize;
        let block = Block {
            vol: ask.vol,
            number: ask.at + u64::from(k),
        };
        if !may_have(before, asks, blocks, block, &blocks[place]) {
            return false;
        }
    }
    true
}

/// Whether the request of this number is open after the rows and of a kind that may end so.
fn may_end_after(before: &[Row], id: u64, outcome: Outcome, started: bool, asks: &[Ask]) -> bool
    ensures { let begun = list_any (is_beginning id) before.now in
        let landed = list_any (is_landing id) before.now in
        result ≡ (begun && not landed && is_kind outcome (ask_of asks.now id).write started) }
{
    has_begun(before, id)
        && !has_landed(before, id)
        && may_end(outcome, ask_or_none(asks, id).write, started)
}

/// Whether the request of this number may land so after the rows.
fn may_land(
    before: &[Row],
    id: u64,
    outcome: Outcome,
    started: bool,
    asks: &[Ask],
    blocks: &[[u8; 512]],
) -> bool
    requires { is_bounded (ask_of asks.now id) ≡ true }
    ensures { (run : ℕ) → let past = facts_of run asks.now blocks.now before.now in
        IsTrue result ↔ Fits past (fact_of run asks.now blocks.now (Landed id outcome started)) }
{
    if !may_end_after(before, id, outcome, started, asks) {
        return false;
    }
    if is_got(outcome) {
        may_get(before, id, asks, blocks)
    } else {
        true
    }
}

/// Whether the client may take the answer of the request of this number after the rows.
fn may_take(before: &[Row], client: u32, id: u64, asks: &[Ask]) -> bool
    ensures { let begun = list_any (is_beginning id) before.now in
        let landed = list_any (is_landing id) before.now in
        let taken = list_any (is_taking id) before.now in
        result ≡ (begun && (ask_of asks.now id).client == client && landed && not taken) }
{
    has_begun(before, id)
        && ask_or_none(asks, id).client == client
        && has_landed(before, id)
        && !is_taken(before, id)
}

/// Whether the row may follow those before it.
fn may_follow(before: &[Row], row: &Row, asks: &[Ask], blocks: &[[u8; 512]]) -> bool
    requires { list_all is_bounded asks.now ≡ true }
    ensures { (run : ℕ) → let past = facts_of run asks.now blocks.now before.now in
        IsTrue result ↔ Fits past (fact_of run asks.now blocks.now row.now) }
{
    match *row {
        Row::Begun { id } => id == begun_count(before) as u64 + 1,
        Row::Landed {
            id,
            outcome,
            started,
        } => may_land(before, id, outcome, started, asks, blocks),
        Row::Taken { client, id } => may_take(before, client, id, asks),
        Row::On { moment } => is_latest(before, moment),
        _ => true,
    }
}

/// Whether the rows are a legal history.
pub fn is_legal(rows: &[Row], asks: &[Ask], blocks: &[[u8; 512]]) -> bool
    requires { list_all is_bounded asks.now ≡ true }
    ensures { (run : ℕ) → IsTrue result ↔ Legal (facts_of run asks.now blocks.now rows.now) }
{
    for (k, row) in rows.iter().enumerate() {
        if !may_follow(&rows[..k], row, asks, blocks) {
            return false;
        }
    }
    true
}
