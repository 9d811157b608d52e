//! Rows in chains. Two that conflict ask for blocks of one track group and so stand in one chain, in order of
//! ids: whom one waits for is found without a look at the rows of other chains.
ghost use Rattle.std.specs.Prelude.{◌≡◌, ◌<◌, ◌+◌, nat_lt, IfSome, Some, true, length, vec_len};
ghost use Rattle.lvm_hold.specs.Conflicts.{conflicts, have_common_block, is_write, IsInGroup};
ghost use Rattle.lvm_hold.specs.Order.{IsAscending, first_conflict};
ghost use Rattle.lvm_hold.specs.Chains.{IsChained, head_of, first_of, last_of, place_in, put_next, put_head};

use crate::queue::{Held, Row};
use crate::tail::Tail;

/// How many chains there are.
pub const HEADS: usize = 2048;

/// The head of its chain.
pub fn head_of(ask: &Held) -> usize
    ensures head { result ≡ head_of ask.now }
    ensures within { result < 2048 }
{
    ((31 * u64::from(ask.lv) + ask.at / 256) % 2048) as usize
}

/// The place of the row of this id.
pub fn place_of(rows: &[Row], id: u64) -> Option<usize>
    requires { IsAscending rows.now }
    ensures place { result ≡ place_in id rows.now }
    ensures within { IfSome result (λ place. place < length rows.now) }
{
    let likely = likely_place(rows, id);
    if is_at(rows, likely, id) {
        return Some(likely);
    }
    rows.binary_search_by_key(&id, |row| row.id).ok()
}

// Where it stands if all requests between it and the first are inside, whose ids go up by two.
fn likely_place(rows: &[Row], id: u64) -> usize {
    match rows.first() {
        None => 0,
        Some(first) => (id.saturating_sub(first.id) / 2) as usize,
    }
}

// Whether the row at a place, if there is one, has this id.
fn is_at(rows: &[Row], place: usize, id: u64) -> bool
    requires { IsAscending rows.now }
    ensures { result ≡ true → place_in id rows.now ≡ Some place }
{
    place < rows.len() && rows[place].id == id
}

/// The place of the last row of a chain.
pub fn last_of(rows: &[Row], head: usize) -> Option<usize>
    ensures place { result ≡ last_of head rows.now }
    ensures within { IfSome result (λ place. place < length rows.now) }
{
    let mut place = rows.len();
    while place > 0 {
        place -= 1;
        if head_of(&rows[place].ask) == head {
            return Some(place);
        }
    }
    None
}

/// Links a row, or none, behind the one at a place, or behind the head where there is none.
pub fn link(
    heads: &mut Vec<Option<u64>>,
    nexts: &mut Tail<Option<u64>>,
    before: Option<usize>,
    head: usize,
    to: Option<u64>,
)
    requires within { IfSome before (λ place. place < length nexts.old.items) }
    requires head { head < vec_len heads.old }
    ensures nexts { nexts.new ≡ record nexts.old { items = put_next before to nexts.old.items } }
    ensures heads { heads.new.items ≡ put_head before head to heads.old.items }
{
    match before {
        Some(place) => nexts.set(place, to),
        None => heads[head] = to,
    }
}

/// The first row of its chain that is earlier than this one and conflicts with it.
pub fn first_in_chain(
    rows: &[Row],
    nexts: &[Option<u64>],
    heads: &[Option<u64>],
    this: &Row,
) -> Option<u64>
    requires chained { IsChained rows.now nexts.now heads.now }
    requires group { IsInGroup this.now.ask }
    ensures { result ≡ first_conflict rows.now this.now }
{
    let mut next = heads[head_of(&this.ask)];
    let mut from = 0;
    while let Some(id) = next {
        if id >= this.id {
            return None;
        }
        let place = from + place_of(&rows[from..], id)?;
        if conflicts(&rows[place].ask, &this.ask) {
            return Some(id);
        }
        next = nexts[place];
        from = place + 1;
    }
    None
}

fn conflicts(a: &Held, b: &Held) -> bool
    ensures { result ≡ conflicts a.now b.now }
{
    have_common_block(a, b) && (is_write(a) || is_write(b))
}

fn have_common_block(a: &Held, b: &Held) -> bool
    ensures { result ≡ have_common_block a.now b.now }
{
    a.lv == b.lv && is_before_end(a.at, b) && is_before_end(b.at, a)
}

// Whether a block is before the end of what one asks for.
fn is_before_end(block: u64, of: &Held) -> bool
    ensures { result ≡ nat_lt block (of.now.at + of.now.count) }
{
    block < of.at || block - of.at < u64::from(of.count)
}

fn is_write(a: &Held) -> bool
    ensures { result ≡ is_write a.now }
{
    a.write && !a.copy
}
