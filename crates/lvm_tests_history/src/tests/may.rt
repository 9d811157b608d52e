//! A history of a thousand requests on a disk and two volumes, which are made, removed and split meanwhile, with cuts.
ghost use Rattle.std.specs.Prelude.{◌≤◌, ◌%◌};
ghost use Rattle.lvm_vol.specs.Log.{spare_entries};

use crate::tests::draws::draw;
use lvm_history::{Ask, Block, History, Row, is_allowed};
use lvm_num::Mode;
use lvm_vol::{Entry, Outcome, Vol};
use std::process::Abort;

const CLIENT: u32 = 7;

// A request that has begun and not landed.
#[derive(Clone, Copy)]
struct Open {
    id: u64,
    write: bool,
}

// What a plain look through a history goes by.
#[derive(Drop)]
struct Told {
    rows: Vec<Row>,
    asks: Vec<Ask>,
    blocks: Vec<[u8; 512]>,
}

fn room(rt: &impl Abort, history: &History, entries: u32)
    ensures { entries ≤ spare_entries history.now }
{
    assert!(rt; history.spare_entries() >= entries);
}

fn vol_of(number: u64) -> Vol {
    match number {
        0 => Vol::Disk(1),
        1 => Vol::Lv(1),
        _ => Vol::Lv(2),
    }
}

fn mode_of(number: u64) -> Mode {
    match number {
        0 => Mode::Off,
        1 => Mode::Active,
        _ => Mode::Passive,
    }
}

fn byte_of(number: u64) -> u8 {
    match number {
        0 => 0,
        1 => 1,
        2 => 2,
        _ => 3,
    }
}

fn block_of(number: u64) -> u64
    ensures within { result ≤ 7941 }
    ensures group { result % 256 ≤ 6 }
{
    match number {
        0 => 5,
        1 => 6,
        // Of a track group of the first volume whose chain is that of the second one's first.
        _ => 7941,
    }
}

fn size_of(number: u64) -> u64 {
    if number == 0 { 6 } else { 8192 }
}

fn end_of_write(number: u64) -> Outcome {
    match number {
        0 => Outcome::Lost,
        1 => Outcome::Off,
        2 => Outcome::Dark,
        3 => Outcome::NoFresh,
        _ => Outcome::Done,
    }
}

fn begin(rt: &impl Abort, history: &mut History, seed: &mut u64) -> Open {
    let vol = vol_of(draw(seed, 3));
    let at = block_of(draw(seed, 3));
    let byte = byte_of(draw(seed, 4));
    let write = draw(seed, 3) != 0;
    room(rt, history, 3);
    assert!(rt; history.spare_bytes() >= 512);
    let id = if write {
        history.begin(CLIENT, vol, at, 1, Some([byte; 512].as_slice()))
    } else {
        history.begin(CLIENT, vol, at, 1, None)
    };
    Open { id, write }
}

fn land(rt: &impl Abort, history: &mut History, open: Open, seed: &mut u64) {
    if open.write {
        let started = draw(seed, 2) == 0;
        let outcome = end_of_write(draw(seed, 7));
        assert!(rt; history.is_open(open.id));
        history.land(open.id, outcome, started);
    } else {
        let byte = byte_of(draw(seed, 4));
        assert!(rt; history.awaited(open.id) == Some(1));
        history.land_read(open.id, [byte; 512].as_slice());
    }
    if draw(seed, 2) == 0 {
        assert!(rt; history.is_answered(CLIENT, open.id));
        history.taken(CLIENT, open.id);
    }
}

// Something else is entered, now and then.
fn stir(rt: &impl Abort, history: &mut History, seed: &mut u64) {
    let lv = 1 + draw(seed, 2) as u16;
    room(rt, history, 1);
    match draw(seed, 60) {
        0 | 1 => history.push(Entry::Making {
            lv,
            blocks: size_of(draw(seed, 2)),
            mode: mode_of(draw(seed, 3)),
        }),
        2 => history.push(Entry::Removed { vol: Vol::Lv(lv) }),
        3 => history.push(Entry::Split { from: 1, lv: 2 }),
        4 | 5 => history.cut(),
        _ => {}
    }
}

fn row_of(entry: &Entry) -> Row {
    match *entry {
        Entry::Making { lv, blocks, mode } => Row::Making { lv, blocks, mode },
        Entry::Made { lv } => Row::Made { lv },
        Entry::Split { from, lv } => Row::Split { from, lv },
        Entry::Removing { vol } => Row::Removing { vol },
        Entry::Removed { vol } => Row::Removed { vol },
        Entry::Begun { id, .. } => Row::Begun { id },
        Entry::Landed {
            id,
            outcome,
            started,
        } => Row::Landed {
            id,
            outcome,
            started,
        },
        Entry::Taken { client, id } => Row::Taken { client, id },
        Entry::Cut => Row::Cut,
        Entry::On { moment } => Row::On { moment },
    }
}

fn take_in(rt: &impl Abort, told: &mut Told, entry: &Entry) {
    if let Entry::Begun {
        client,
        vol,
        at,
        count,
        write,
        place,
        ..
    } = *entry
    {
        let ask = Ask {
            client,
            vol,
            at,
            count,
            write,
            place,
        };
        assert!(rt; told.asks.push(ask).is_ok());
    }
    assert!(rt; told.rows.push(row_of(entry)).is_ok());
}

fn told_of(rt: &(impl Abort + AllocGlobal), history: &History) -> Told {
    let mut told = Told {
        rows: Vec::new(rt.alloc()),
        asks: Vec::new(rt.alloc()),
        blocks: Vec::new(rt.alloc()),
    };
    for k in 0..history.len() {
        take_in(rt, &mut told, &history.entry(k));
    }
    for place in 0..history.block_count() {
        assert!(rt; told.blocks.push(*history.block(place)).is_ok());
    }
    told
}

// Whether the history says of these what the plain look says, and of how many it says that they may be.
fn alike(rt: &(impl Abort + AllocGlobal), history: &History) -> u32 {
    let told = told_of(rt, history);
    let mut may = 0u32;
    for n in 0..36 {
        let vol = vol_of(n / 12);
        let number = block_of(n / 4 % 3);
        let value = [byte_of(n % 4); 512];
        let block = Block { vol, number };
        let plain = is_allowed(&told.rows, &told.asks, &told.blocks, block, &value);
        assert!(rt; history.may_of(vol, number, &value) == plain, "{n}");
        if plain {
            may = may.saturating_add(1);
        }
    }
    may
}

#[test]
fn a_history_allows_what_a_plain_look_through_it_allows(rt: HostRuntime) {
    let mut history = History::new(rt.alloc(), 50, 8000, 1_000_000).expect(&rt, "memory");
    let mut open = Vec::new(rt.alloc());
    let mut seed = 11;
    let mut may = 0u32;
    for n in 0..1000 {
        let begun = begin(&rt, &mut history, &mut seed);
        assert!(rt; open.push(begun).is_ok());
        if open.len() > 1 && draw(&mut seed, 5) != 0 {
            let k = draw(&mut seed, open.len() as u64) as usize;
            let ended = open.remove(k);
            land(&rt, &mut history, ended, &mut seed);
        }
        stir(&rt, &mut history, &mut seed);
        if n % 500 == 499 {
            may = may.saturating_add(alike(&rt, &history));
        }
    }
    assert!(rt; may > 6 && may < 66, "{may}");
}

fn begin_write(rt: &impl Abort, history: &mut History, byte: u8) -> u64 {
    room(rt, history, 3);
    assert!(rt; history.spare_bytes() >= 512);
    history.begin(CLIENT, Vol::Lv(1), 5, 1, Some([byte; 512].as_slice()))
}

// Of the bytes 0 to 3, those of which block 5 may be full.
fn allowed(history: &History) -> [bool; 4] {
    [
        history.may_of(Vol::Lv(1), 5, &[0; 512]),
        history.may_of(Vol::Lv(1), 5, &[1; 512]),
        history.may_of(Vol::Lv(1), 5, &[2; 512]),
        history.may_of(Vol::Lv(1), 5, &[3; 512]),
    ]
}

// What fixes the block's values doesn't end the writes that are open, and a cut lets each of them stand.
#[test]
fn an_open_write_outlasts_what_fixes_the_values(rt: HostRuntime) {
    let mut history = History::new(rt.alloc(), 50, 100, 65_536).expect(&rt, "memory");
    let _first = begin_write(&rt, &mut history, 1);
    let second = begin_write(&rt, &mut history, 2);
    assert!(rt; history.is_open(second));
    history.land(second, Outcome::Done, true);
    assert!(rt; allowed(&history) == [false, false, true, false]);
    history.cut();
    assert!(rt; allowed(&history) == [false, true, true, false]);
}

// A read fixes nothing while the block is loose, as a write that went dark has left it in mode off.
#[test]
fn a_read_of_a_loose_block_fixes_nothing(rt: HostRuntime) {
    let mut history = History::new(rt.alloc(), 50, 100, 65_536).expect(&rt, "memory");
    room(&rt, &history, 1);
    history.push(Entry::Making {
        lv: 1,
        blocks: 6,
        mode: Mode::Off,
    });
    let write = begin_write(&rt, &mut history, 1);
    assert!(rt; history.is_open(write));
    history.land(write, Outcome::Dark, true);
    room(&rt, &history, 3);
    assert!(rt; history.spare_bytes() >= 512);
    let read = history.begin(CLIENT, Vol::Lv(1), 5, 1, None);
    assert!(rt; history.awaited(read) == Some(1));
    history.land_read(read, [0; 512].as_slice());
    assert!(rt; allowed(&history) == [true, true, false, false]);
}
