//! Clients whose requests one thread submits, and whose answers it takes.
ghost use Rattle.std.specs.Prelude.{◌≡◌, ◌≤◌, ◌<◌, ◌+◌, ◌-◌, ◌*◌, ◌||◌, ◌==◌, ℕ, Some, false, nat_lt, length, vec_capacity};
ghost use Rattle.std.specs.Option.{option_map_or};
ghost use Rattle.lvm_session.specs.declared.open.Power.TheVariants as power;
ghost use Rattle.lvm_keeps_events.specs.Turning.{is_last};
ghost use Rattle.lvm_driver.specs.passed.Going.{RunsOn, is_moving};
ghost use Rattle.lvm_session.specs.State.{state_of};
ghost use Rattle.lvm_workers.specs.Draws.{after_draw};
ghost use Rattle.lvm_load.specs.Waiting.{AreWaiting, AreWaitingBut, OthersWait, landed_by};
ghost use Rattle.lvm_load.specs.Weaving.{AsksDrawn, TakesFor, TakesEach, Turns, goes_on, idle_after, open_of, turns_left};

use crate::request::submit_drawn;
use lvm_disk::Shelf;
use lvm_driver::Driver;
use lvm_session::{AskFault, Taken, Turned};
use lvm_vol::Entry;
use lvm_workers::draw_request;
use rand_pcg::Lcg64Xsh32;

// Between the words of a client's requests.
const STRIDE: u64 = 8;

/// A client: the request that it has open, and how far the word of its next one is behind that of its first.
#[derive(Clone, Copy)]
pub struct Client {
    pub request: Option<u64>,
    pub offset: u64,
}

// Takes the answer of a client's open request, if it has landed.
fn take<S: Shelf>(driver: &mut Driver<S>, clients: &mut [Client], k: u32)
    requires within { k < length clients.old }
    requires few { length clients.old ≤ 64 }
    ensures takes { TakesFor k (state_of S.device driver.old) (state_of S.device driver.new) clients.old clients.new }
    ensures runs { RunsOn (state_of S.device driver.old) (state_of S.device driver.new) }
{
    let client = &mut clients[k as usize];
    if let Some(id) = client.request {
        match driver.take(k + 1, id) {
            Taken::NotYet => {}
            _ => client.request = None,
        }
    }
}

// Takes the answers of the requests that have landed, in the order of clients.
fn take_landed<S: Shelf>(driver: &mut Driver<S>, clients: &mut [Client])
    requires few { length clients.old ≤ 64 }
    ensures takes { TakesEach (state_of S.device driver.old) clients.old (length clients.old) (state_of S.device driver.new) clients.new }
    ensures runs { RunsOn (state_of S.device driver.old) (state_of S.device driver.new) }
{
    for k in 0..clients.len() as u32 {
        take(driver, clients, k);
    }
}

// Whether a client has this request open.
fn has_asked(client: &Client, id: u64) -> bool
    ensures { result ≡ option_map_or (λ asked. asked == id) client.now.request false }
{
    match client.request {
        None => false,
        Some(asked) => asked == id,
    }
}

// From one client on, a place up to which none has this request open.
fn next_asker(clients: &[Client], from: u32, id: u64) -> u32
    requires few { length clients.now ≤ 64 }
    requires from { from ≤ length clients.now }
    ensures within { (from ≤ result) × (result ≤ length clients.now) }
    ensures others { (k : ℕ) → from ≤ k → k < result → open_of clients.now k ≡ Some id → ⊥ }
{
    let mut k = from;
    while k < clients.len() as u32 && !has_asked(&clients[k as usize], id) {
        k += 1;
    }
    k
}

// Takes the answer of this request where it has landed. All others wait.
fn take_only<S: Shelf>(driver: &mut Driver<S>, clients: &mut [Client], id: u64)
    requires few { length clients.old ≤ 64 }
    requires waiting { AreWaitingBut id driver.old.1 clients.old }
    ensures takes { TakesEach (state_of S.device driver.old) clients.old (length clients.old) (state_of S.device driver.new) clients.new }
    ensures runs { RunsOn (state_of S.device driver.old) (state_of S.device driver.new) }
{
    driver.is_sound();
    let count = clients.len() as u32;
    let mut k = next_asker(clients, 0, id);
    while k < count {
        take(driver, clients, k);
        driver.is_sound();
        k = next_asker(clients, k + 1, id);
    }
}

// The request that landed by an entry.
fn landed_by(entry: Entry) -> Option<u64>
    ensures { result ≡ landed_by entry }
{
    match entry {
        Entry::Landed { id, .. } => Some(id),
        _ => None,
    }
}

// Takes what has landed: where the session goes on, that is the one request of which the entry tells behind so many.
fn take_behind<S: Shelf>(
    driver: &mut Driver<S>,
    clients: &mut [Client],
    before: u32,
    answer: Turned,
)
    requires few { length clients.old ≤ 64 }
    requires grown { is_last answer ≡ false → before < length driver.old.1.history.facts }
    requires waiting { is_last answer ≡ false → OthersWait before driver.old.1 clients.old }
    ensures takes { TakesEach (state_of S.device driver.old) clients.old (length clients.old) (state_of S.device driver.new) clients.new }
    ensures runs { RunsOn (state_of S.device driver.old) (state_of S.device driver.new) }
{
    if is_last(answer) {
        take_landed(driver, clients);
        return;
    }
    match landed_by(driver.history().entry(before)) {
        None => take_landed(driver, clients),
        Some(id) => take_only(driver, clients, id),
    }
}

// How many turns have moved nothing since the last that did, after one that answers so.
fn idle_after(answer: Turned, idle: u32) -> u32
    requires { idle < 1000000 }
    ensures { result ≡ idle_after answer idle }
{
    match answer {
        Turned::Moved => 0,
        Turned::Idle | Turned::Dark | Turned::Off => idle + 1,
    }
}

// Whether a session is over behind a turn that answers so.
fn is_last(answer: Turned) -> bool
    ensures { result ≡ is_last answer }
{
    match answer {
        Turned::Moved | Turned::Idle => false,
        Turned::Dark | Turned::Off => true,
    }
}

// Whether answers might have landed in a turn: the history has grown in it, or the session is over.
fn might_have_landed(before: u32, after: u32, answer: Turned) -> bool
    ensures { result ≡ (nat_lt before after || is_last answer) }
{
    before < after || is_last(answer)
}

/// Makes a turn, and takes what has landed.
pub(crate) fn turn<S: Shelf>(driver: &mut Driver<S>, clients: &mut [Client], idle: &mut u32)
    requires unstuck { driver.old.1.power ≡ power.Stuck → ⊥ }
    requires unmoved { is_moving driver.old.1 ≡ false }
    requires few { length clients.old ≤ 64 }
    requires patient { idle.old < 1000000 }
    requires waiting { AreWaiting driver.old.1 clients.old }
    ensures turns { Turns (state_of S.device driver.old) (state_of S.device driver.new) clients.old clients.new idle.old idle.new }
    ensures less { turns_left driver.new.1 idle.new < turns_left driver.old.1 idle.old }
    ensures runs { RunsOn (state_of S.device driver.old) (state_of S.device driver.new) }
{
    driver.is_sound();
    let before = driver.history().len();
    let answer = driver.turn();
    *idle = idle_after(answer, *idle);
    if might_have_landed(before, driver.history().len(), answer) {
        take_behind(driver, clients, before, answer);
    }
}

// Whether further requests may begin where one isn't taken for this.
pub(crate) fn goes_on(why: AskFault) -> bool
    ensures { result ≡ goes_on (Err why) }
{
    match why {
        AskFault::TableFull { .. } => true,
        AskFault::Dark
        | AskFault::Off
        | AskFault::NoVolume
        | AskFault::OutOfRange { .. }
        | AskFault::HistoryFull => false,
    }
}

/// Draws a request of a client and submits it. Answers whether further ones may begin.
pub(crate) fn ask<S: Shelf>(
    driver: &mut Driver<S>,
    clients: &mut [Client],
    rng: &mut Lcg64Xsh32,
    k: u32,
    lv: u16,
    blocks: u64,
    bytes: &mut Vec<u8>,
) -> bool
    requires unstuck { driver.old.1.power ≡ power.Stuck → ⊥ }
    requires within { (k < length clients.old) × (length clients.old ≤ 64) }
    requires some { 1 ≤ blocks }
    requires room { 131072 ≤ vec_capacity bytes.old }
    ensures asks { AsksDrawn lv blocks k rng.old (state_of S.device driver.old) (state_of S.device driver.new) clients.old clients.new result }
    ensures rng { rng.new ≡ after_draw rng.old }
    ensures runs { RunsOn (state_of S.device driver.old) (state_of S.device driver.new) }
    ensures room { 131072 ≤ vec_capacity bytes.new }
{
    let drawn = draw_request(rng);
    let number = k + 1;
    let client = &mut clients[k as usize];
    let first = 0x1_0000_0000 * u64::from(number);
    let word = first.wrapping_add(client.offset);
    client.offset = client.offset.wrapping_add(STRIDE);
    match submit_drawn(driver, number, &drawn, lv, blocks, word, bytes) {
        Ok(id) => {
            client.request = Some(id);
            true
        }
        Err(why) => goes_on(why),
    }
}
