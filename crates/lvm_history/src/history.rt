//! The list of what was asked and answered, in room that is made with it.
ghost use Rattle.std.specs.Prelude.{◌≡◌, ◌==◌, ◌↔◌, ◌+◌, ◌-◌, ◌*◌, ◌%◌, ◌^◌, ◌<◌, ◌≤◌, ◌++◌, [], ◌∷◌, length, IfOk, IsTrue, IsSome, Some, option_copied, slice_get, true, false, vec_len, vec_capacity, replicate, take, drop};
ghost use Rattle.std.specs.Option.{ForSome};
ghost use Rattle.lvm_history.specs.passed.Vol.{zero_sector, Legal, known, May, Ordered, Begun, empty_log, with_fact, next_id, next_request, asked, request_of, is_open, awaited, is_answered, landed_fact, got_fact, taken_fact, is_plain, plain_fact, spare_entries, open_count, landed_count, spare_bytes, cut_log, is_uncut_after, blocks_begun, blocks_of, entries_of};
ghost use Rattle.lvm_chains.specs.Places.{has_landed_in, has_taken_in, landed_index};
ghost use Rattle.lvm_history.specs.Keeping.{row_of, blocks_first, ask_found, is_open_by, awaited_by, is_answered_by, entry_kept, IsOneOfAsks};

use crate::below::{Entry, Memory, Outcome, Vol};
use lvm_allowed::{Ask, Block, Row, is_legal};
use lvm_chains::{Index, REST, SHAPING, chain_of, may_have_along, plain_chain};
use std::alloc::Global;
use std::marker::Model;

/// What was asked of disks and volumes and how it ended, in order, with the blocks written and read.
///
/// Contracts see the run, the entries with their data, and the room. A request is named by its run and
/// its number there, so that histories of several runs can follow each other. Each request keeps room
/// for its three entries from its first on, and one entry is always kept for a cut, so `land`, `taken`
/// and `cut` never want room. No call but `new` takes memory.
#[derive(Drop)]
pub struct History {
    run: u64,
    room: u32,
    bytes: u64,
    rows: Vec<Row>,
    asks: Vec<Ask>,
    blocks: Vec<[u8; 512]>,
    // Where the rows stand, by their chains and by the requests' numbers.
    index: Index,
    // The entries that stand or are kept for the requests that began.
    needed: u32,
    // Whether something was entered since the last cut that a cut would end.
    uncut: bool,
}

impl Model for History {
    ghost use Rattle.lvm_history.specs.passed.Vol.{Log};

    ghost Value = { Log };

    ghost use Rattle.lvm_history.specs.Opened.{log_shown, IsInOrder};

    ghost view = { log_shown };

    ghost invariant = { IsInOrder };
}

impl History {
    /// An empty history of this run, with room for so many entries and for so many bytes of blocks
    /// written and read.
    pub fn new(alloc: Global, run: u64, entries: u32, bytes: u64) -> Result<History, Memory>
        requires { 4 ≤ entries }
        ensures { IfOk result (λ history. history ≡ empty_log run entries bytes) }
    {
        let (Ok(rows), Ok(asks), Ok(blocks), Ok(index)) = (
            Vec::with_capacity(alloc, entries as usize),
            Vec::with_capacity(alloc, entries as usize / 3),
            Vec::with_capacity(alloc, (bytes / 512) as usize),
            Index::new(alloc, entries),
        ) else {
            return Err(Memory);
        };
        Ok(History {
            run,
            room: entries,
            bytes,
            rows,
            asks,
            blocks,
            index,
            needed: 0,
            uncut: false,
        })
    }

    /// The run that it was made for.
    pub fn run(&self) -> u64
        ensures run { result ≡ self.now.run }
        // All that it tells is of this run, with each request's entries in their order.
        ensures ordered { Ordered self.now.run [] self.now.facts }
    {
        self.run
    }

    /// How many entries it has.
    pub fn len(&self) -> u32
        ensures { result ≡ length self.now.facts }
    {
        self.rows.len() as u32
    }

    /// Whether it has none.
    pub fn is_empty(&self) -> bool
        ensures { result ≡ (length self.now.facts == 0) }
    {
        self.len() == 0
    }

    /// How many entries can still be entered: the room less the entries, less two for each request that
    /// has begun and not landed, one for each that has landed and isn't taken, and one that is kept for
    /// a cut.
    pub fn spare_entries(&self) -> u32
        ensures spare { result ≡ spare_entries self.now }
        ensures counted { let log = self.now in
            result ≡ log.room - length log.facts - 2 * open_count log.facts - landed_count log.facts - 1 }
    {
        self.room.saturating_sub(self.needed).saturating_sub(1)
    }

    /// The room left for blocks, in bytes.
    pub fn spare_bytes(&self) -> u64
        ensures { result ≡ spare_bytes self.now }
    {
        self.bytes - 512 * self.blocks.len() as u64
    }

    /// Whether the request of this number has begun and not landed.
    pub fn is_open(&self, id: u64) -> bool
        ensures { result ≡ is_open self.now.facts id }
    {
        is_open_in(&self.asks, &self.index, id)
    }

    /// How many blocks the read of this number waits for, if it has begun and not landed.
    pub fn awaited(&self, id: u64) -> Option<u32>
        ensures { result ≡ awaited self.now.facts id }
    {
        awaited_in(&self.asks, &self.index, id)
    }

    /// Whether the request of this number is this client's, has landed, and its answer isn't taken.
    pub fn is_answered(&self, client: u32, id: u64) -> bool
        ensures { result ≡ is_answered self.now.facts client id }
    {
        is_answered_in(&self.asks, &self.index, client, id)
    }

    /// Enters that a request of `count` blocks from `at` on has begun, a write where bytes are given,
    /// and answers its number. A read's blocks are zeros until it lands.
    pub fn begin(&mut self, client: u32, vol: Vol, at: u64, count: u32, bytes: Option<&[u8]>) -> u64
        requires entries { 3 ≤ spare_entries self.old }
        requires bytes { 512 * count ≤ spare_bytes self.old }
        requires some { 1 ≤ count }
        requires last { at + count < 2 ^ 64 }
        requires group { at % 256 + count ≤ 256 }
        requires length { ForSome (option_copied bytes) (λ given. length given ≡ 512 * count) }
        ensures id { result ≡ next_id self.old }
        ensures entered { let r = next_request self.old client vol at count (option_copied bytes.entry) in
            self.new ≡ with_fact self.old (Begun r) }

        // From now on it can land.
        ensures opened { is_open self.new.facts result ≡ true }
        ensures named { let r = next_request self.old client vol at count (option_copied bytes.entry) in
            asked self.new.facts result ≡ Some r }
    {
        let place = self.blocks.len() as u64;
        append_given(&mut self.blocks, count, bytes);
        append(
            &mut self.asks,
            Ask {
                client,
                vol,
                at,
                count,
                write: bytes.is_some(),
                place,
            },
        );
        let id = self.asks.len() as u64;
        append(&mut self.rows, Row::Begun { id });
        self.index.begin();
        self.index.add(chain_of(vol, at / 256));
        self.needed += 3;
        self.uncut = true;
        id
    }

    /// Enters that a request has landed. A Got that is entered so, without bytes, has the blocks that
    /// stand at its place: zeros, or a write's own.
    pub fn land(&mut self, id: u64, outcome: Outcome, started: bool)
        requires { is_open self.old.facts id ≡ true }
        ensures entered { self.new ≡ with_fact self.old (landed_fact self.old.facts id outcome started) }
        ensures answered { is_answered self.new.facts (request_of self.old.facts id).client id ≡ true }
    {
        append(
            &mut self.rows,
            Row::Landed {
                id,
                outcome,
                started,
            },
        );
        index_landing(&mut self.index, &self.asks, id);
    }

    /// Enters that a read has landed with these bytes.
    pub fn land_read(&mut self, id: u64, bytes: &[u8])
        requires read { IsSome (awaited self.old.facts id) }
        requires length { ForSome (awaited self.old.facts id) (λ count. length bytes.now ≡ 512 * count) }
        ensures entered { self.new ≡ with_fact self.old (got_fact self.old.facts id bytes.now) }
        ensures answered { is_answered self.new.facts (request_of self.old.facts id).client id ≡ true }
    {
        let place = self.asks[(id - 1) as usize].place as usize;
        overwrite(&mut self.blocks, place, bytes.as_chunks::<512>().0);
        append(
            &mut self.rows,
            Row::Landed {
                id,
                outcome: Outcome::Got,
                started: true,
            },
        );
        index_landing(&mut self.index, &self.asks, id);
    }

    /// Enters that a client has taken the answer of its request.
    pub fn taken(&mut self, client: u32, id: u64)
        requires { is_answered self.old.facts client id ≡ true }
        ensures { self.new ≡ with_fact self.old (taken_fact self.old.facts id) }
    {
        append(&mut self.rows, Row::Taken { client, id });
        self.index.take(id);
        self.index.add(REST);
    }

    /// Enters an entry that isn't about a request and isn't a cut.
    pub fn push(&mut self, entry: Entry)
        requires spare { 1 ≤ spare_entries self.old }
        requires plain { is_plain entry ≡ true }
        ensures { self.new ≡ with_fact self.old (plain_fact entry) }
    {
        let row = plain_row(entry);
        self.index.add(plain_chain(&row));
        append(&mut self.rows, row);
        self.needed += 1;
        self.uncut = is_uncut_after(self.uncut, entry);
    }

    /// Enters a cut, except where nothing began, no volume was being made or removed and no group was
    /// varied on since the last one.
    pub fn cut(&mut self)
        ensures { self.new ≡ cut_log self.old }
    {
        if self.uncut {
            append(&mut self.rows, Row::Cut);
            self.index.add(SHAPING);
            self.needed += 1;
            self.uncut = false;
        }
    }

    /// Whether the block of the volume may have this value now: its values are unknown, or this is one
    /// of them. Goes along the chains of the block's track group and of what shapes volumes, from the newest entry
    /// back, up to the first that fixes its values; for writes that were open at a cut it looks further back.
    pub fn may_of(&self, vol: Vol, block: u64, value: &[u8; 512]) -> bool
        ensures { IsTrue result ↔ May (known self.now.facts vol block) value.now }
    {
        let block = Block { vol, number: block };
        may_have_along(
            &self.rows,
            &self.asks,
            &self.blocks,
            &self.index,
            block,
            value,
        )
    }

    /// Whether the history is legal: requests are numbered, landed and taken in their order, each lands
    /// as one of its kind may, moments rise, and each read got values that its blocks might have then.
    /// Looks through all entries for each of them.
    pub fn is_legal(&self) -> bool
        ensures { IsTrue result ↔ Legal self.now.facts }
    {
        is_legal(&self.rows, &self.asks, &self.blocks)
    }

    /// The entry at this index, from 0.
    pub fn entry(&self, k: u32) -> Entry
        requires { k < length self.now.facts }
        ensures { slice_get (entries_of self.now.facts) k ≡ Some result }
    {
        entry_of(&self.rows[k as usize], &self.asks)
    }

    /// How many blocks it has, at places from 0 on.
    pub fn block_count(&self) -> u64
        ensures { result ≡ blocks_begun self.now.facts }
    {
        self.blocks.len() as u64
    }

    /// The block at a place: a write's data, what a read got, or zeros.
    pub fn block(&self, place: u64) -> &[u8; 512]
        requires { place < blocks_begun self.now.facts }
        ensures { slice_get (blocks_of self.now.facts) place ≡ Some result.now }
    {
        &self.blocks[place as usize]
    }
}

// Adds an item to items that have room.
fn append<T>(items: &mut Vec<T>, item: T)
    requires { vec_len items.old < vec_capacity items.old }
    ensures items { items.new.items ≡ items.old.items ++ item ∷ [] }
    ensures len { vec_len items.new ≡ vec_len items.old + 1 }
    ensures capacity { vec_capacity items.old ≤ vec_capacity items.new }
{
    match items.push(item) {
        Ok(()) => {}
        Err(_) => unreachable!(),
    }
}

// Adds blocks to blocks that have room.
fn append_all(blocks: &mut Vec<[u8; 512]>, more: &[[u8; 512]])
    requires { vec_len blocks.old + length more.now ≤ vec_capacity blocks.old }
    ensures items { blocks.new.items ≡ blocks.old.items ++ more.now }
    ensures capacity { vec_capacity blocks.old ≤ vec_capacity blocks.new }
{
    match blocks.extend_from_slice(more) {
        Ok(()) => {}
        Err(_) => unreachable!(),
    }
}

// Adds blocks of zeros to blocks that have room.
fn append_zeros(blocks: &mut Vec<[u8; 512]>, count: u32)
    requires { vec_len blocks.old + count ≤ vec_capacity blocks.old }
    ensures items { blocks.new.items ≡ blocks.old.items ++ replicate count zero_sector }
    ensures capacity { vec_capacity blocks.old ≤ vec_capacity blocks.new }
{
    match blocks.resize(blocks.len() + count as usize, [0; 512]) {
        Ok(()) => {}
        Err(_) => unreachable!(),
    }
}

// Adds a write's blocks, or as many zeros for a read, to blocks that have room.
fn append_given(blocks: &mut Vec<[u8; 512]>, count: u32, bytes: Option<&[u8]>)
    requires room { vec_len blocks.old + count ≤ vec_capacity blocks.old }
    requires length { ForSome (option_copied bytes) (λ given. length given ≡ 512 * count) }
    ensures items { blocks.new.items ≡ blocks.old.items ++ blocks_first count (option_copied bytes.entry) }
    ensures capacity { vec_capacity blocks.old ≤ vec_capacity blocks.new }
{
    match bytes {
        Some(bytes) => append_all(blocks, bytes.as_chunks::<512>().0),
        None => append_zeros(blocks, count),
    }
}

// Writes over blocks from a place on.
fn overwrite(blocks: &mut Vec<[u8; 512]>, place: usize, more: &[[u8; 512]])
    requires { place + length more.now ≤ vec_len blocks.old }
    ensures items { let old = blocks.old.items in
        blocks.new.items ≡ take place old ++ more.now ++ drop (place + length more.now) old }
    ensures capacity { vec_capacity blocks.new ≡ vec_capacity blocks.old }
{
    blocks[place..place + more.len()].copy_from_slice(more);
}

// The request of this number, if it began.
fn ask_of(asks: &[Ask], id: u64) -> Option<Ask>
    ensures { result ≡ ask_found asks.now id }
{
    if id == 0 {
        None
    } else {
        asks.get((id - 1) as usize).copied()
    }
}

// Whether the request of this number has landed.
fn has_landed(index: &Index, id: u64) -> bool
    ensures { result ≡ has_landed_in index.now id }
{
    index.step(id).landed > 0
}

// Whether the request of this number has begun and not landed.
fn is_open_in(asks: &[Ask], index: &Index, id: u64) -> bool
    ensures { result ≡ is_open_by (ask_found asks.now id) (has_landed_in index.now id) }
{
    match ask_of(asks, id) {
        Some(_) => !has_landed(index, id),
        None => false,
    }
}

// How many blocks the read of this number waits for.
fn awaited_in(asks: &[Ask], index: &Index, id: u64) -> Option<u32>
    ensures { result ≡ awaited_by (ask_found asks.now id) (has_landed_in index.now id) }
{
    match ask_of(asks, id) {
        Some(ask) => {
            if !has_landed(index, id) && !ask.write {
                Some(ask.count)
            } else {
                None
            }
        }
        None => None,
    }
}

// Whether the request of this number is this client's, has landed and isn't taken.
fn is_answered_in(asks: &[Ask], index: &Index, client: u32, id: u64) -> bool
    ensures { let landed = has_landed_in index.now id in
        result ≡ is_answered_by (ask_found asks.now id) client landed (has_taken_in index.now id) }
{
    match ask_of(asks, id) {
        Some(ask) => ask.client == client && has_landed(index, id) && !index.step(id).taken,
        None => false,
    }
}

// Enters in the index that a request landed by the newest row.
fn index_landing(index: &mut Index, asks: &[Ask], id: u64)
    requires id { id - 1 < length asks.now }
    requires steps { length index.old.steps ≡ length asks.now }
    requires room { length index.old.chains < index.old.room }
    ensures { index.new ≡ landed_index index.old asks.now id }
{
    let ask = asks[id.saturating_sub(1) as usize];
    index.add(chain_of(ask.vol, ask.at / 256));
    index.land(id);
}

// The row of an entry that is pushed.
fn plain_row(entry: Entry) -> Row
    requires { is_plain entry ≡ true }
    ensures { result ≡ row_of (plain_fact entry) }
{
    match entry {
        Entry::Making { lv, blocks, mode } => Row::Making { lv, blocks, mode },
        Entry::Made { lv } => Row::Made { lv },
        Entry::Split { from, lv } => Row::Split { from, lv },
        Entry::Removing { vol } => Row::Removing { vol },
        Entry::Removed { vol } => Row::Removed { vol },
        Entry::On { moment } => Row::On { moment },
        _ => unreachable!(),
    }
}

// Whether a cut would end something after the entry, which is pushed.
fn is_uncut_after(uncut: bool, entry: Entry) -> bool
    requires { is_plain entry ≡ true }
    ensures { result ≡ is_uncut_after uncut (plain_fact entry) }
{
    uncut
        || matches!(
            entry,
            Entry::Making { .. } | Entry::Removing { .. } | Entry::On { .. }
        )
}

// The entry of a row.
fn entry_of(row: &Row, asks: &[Ask]) -> Entry
    requires { IsOneOfAsks row.now (length asks.now) }
    ensures { result ≡ entry_kept asks.now row.now }
{
    match *row {
        Row::Making { lv, blocks, mode } => Entry::Making { lv, blocks, mode },
        Row::Made { lv } => Entry::Made { lv },
        Row::Split { from, lv } => Entry::Split { from, lv },
        Row::Removing { vol } => Entry::Removing { vol },
        Row::Removed { vol } => Entry::Removed { vol },
        Row::Begun { id } => {
            let ask = asks[(id - 1) as usize];
            Entry::Begun {
                client: ask.client,
                id,
                vol: ask.vol,
                at: ask.at,
                count: ask.count,
                write: ask.write,
                place: ask.place,
            }
        }
        Row::Landed {
            id,
            outcome,
            started,
        } => Entry::Landed {
            id,
            outcome,
            started,
        },
        Row::Taken { client, id } => Entry::Taken { client, id },
        Row::Cut => Entry::Cut,
        Row::On { moment } => Entry::On { moment },
    }
}
