//! The workload of one thread.
ghost use Rattle.std.specs.Prelude.{◌≡◌, ◌≤◌, ◌<◌, false, length, vec_capacity};
ghost use Rattle.std.specs.List.{list_any};
ghost use Rattle.lvm_session.specs.declared.open.Power.TheVariants as power;
ghost use Rattle.lvm_driver.specs.passed.Going.{RunsOn, is_moving};
ghost use Rattle.lvm_session.specs.State.{state_of};
ghost use Rattle.lvm_load.specs.Ends.{HasCauses};
ghost use Rattle.lvm_load.specs.Totals.{entries_since, totals_of};
ghost use Rattle.lvm_load.specs.Waiting.{AreWaiting};
ghost use Rattle.lvm_load.specs.Weaving.{FinishesAll, NamesNext, DrawsAll, Weaves, first_weaving, has_open, weaving};

use crate::client::{Client, ask, turn};
use crate::totals::{Totals, totals_since};
use lvm_disk::Shelf;
use lvm_driver::Driver;
use lvm_workers::{PATIENCE, generator, next_word};
use rand_pcg::Lcg64Xsh32;

/// How a workload ended.
#[derive(Clone, Copy)]
pub struct Woven {
    pub totals: Totals,
    /// Whether a client still waits for an answer, since nothing was heard of a transfer a million times.
    pub waiting: bool,
}

/// So many requests of so many clients, 1 to 64, which are drawn from the seed.
#[derive(Clone, Copy)]
pub struct Workload {
    pub clients: u32,
    pub requests: u32,
    pub seed: u64,
}

// Draws words until one names a client that has no request open, and makes a turn for each that has. None where nothing is
// heard.
fn next_client<S: Shelf>(
    driver: &mut Driver<S>,
    clients: &mut [Client],
    rng: &mut Lcg64Xsh32,
    idle: &mut u32,
) -> Option<u32>
    requires unstuck { driver.old.1.power ≡ power.Stuck → ⊥ }
    requires unmoved { is_moving driver.old.1 ≡ false }
    requires few { (1 ≤ length clients.old) × (length clients.old ≤ 64) }
    requires patient { idle.old ≤ 1000000 }
    requires waiting { AreWaiting driver.old.1 clients.old }
    ensures gives { NamesNext (weaving (state_of S.device driver.old) clients.old rng.old idle.old) (weaving (state_of S.device driver.new) clients.new rng.new idle.new) result }
    ensures runs { RunsOn (state_of S.device driver.old) (state_of S.device driver.new) }
    ensures patient { idle.new ≤ 1000000 }
    ensures waiting { AreWaiting driver.new.1 clients.new }
{
    while *idle < PATIENCE {
        let client = next_word(rng) % clients.len() as u32;
        if clients[client as usize].request.is_none() {
            return Some(client);
        }
        turn(driver, clients, idle);
    }
    None
}

// Draws so many requests and submits them. It ends early where no further one may begin, or nothing is heard.
fn draw_all<S: Shelf>(
    driver: &mut Driver<S>,
    clients: &mut [Client],
    rng: &mut Lcg64Xsh32,
    idle: &mut u32,
    requests: u32,
    lv: u16,
    blocks: u64,
    bytes: &mut Vec<u8>,
)
    requires unstuck { driver.old.1.power ≡ power.Stuck → ⊥ }
    requires unmoved { is_moving driver.old.1 ≡ false }
    requires clients { (1 ≤ length clients.old) × (length clients.old ≤ 64) × AreWaiting driver.old.1 clients.old }
    requires patient { idle.old ≤ 1000000 }
    requires some { 1 ≤ blocks }
    requires room { 131072 ≤ vec_capacity bytes.old }
    ensures draws { DrawsAll lv blocks requests (weaving (state_of S.device driver.old) clients.old rng.old idle.old) (weaving (state_of S.device driver.new) clients.new rng.new idle.new) }
    ensures runs { RunsOn (state_of S.device driver.old) (state_of S.device driver.new) × (idle.new ≤ 1000000) × AreWaiting driver.new.1 clients.new }
    ensures room { 131072 ≤ vec_capacity bytes.new }
{
    let mut drawn = 0;
    while drawn < requests {
        let Some(client) = next_client(driver, clients, rng, idle) else {
            return;
        };
        if !ask(driver, clients, rng, client, lv, blocks, bytes) {
            return;
        }
        drawn += 1;
    }
}

// Whether a client has a request open.
fn is_waiting(clients: &[Client]) -> bool
    ensures { result ≡ list_any has_open clients.now }
{
    clients.iter().any(|client| client.request.is_some())
}

// Makes turns until all requests have landed and are taken, or nothing is heard.
fn finish<S: Shelf>(driver: &mut Driver<S>, clients: &mut [Client], idle: &mut u32)
    requires unstuck { driver.old.1.power ≡ power.Stuck → ⊥ }
    requires unmoved { is_moving driver.old.1 ≡ false }
    requires few { length clients.old ≤ 64 }
    requires patient { idle.old ≤ 1000000 }
    requires waiting { AreWaiting driver.old.1 clients.old }
    ensures finishes { FinishesAll (state_of S.device driver.old) clients.old idle.old (state_of S.device driver.new) clients.new idle.new }
    ensures runs { RunsOn (state_of S.device driver.old) (state_of S.device driver.new) }
{
    while is_waiting(clients) && *idle < PATIENCE {
        turn(driver, clients, idle);
    }
}

/// Lets clients ask for reads and writes of a volume of so many blocks, each for one at a time, as they are drawn from the
/// seed, makes turns between, and takes the answers. It ends early where no further request may begin, and where a million
/// turns have moved nothing. It never ends for want of memory: the bytes have room for a whole request.
pub fn weave<S: Shelf>(
    driver: &mut Driver<S>,
    lv: u16,
    blocks: u64,
    workload: &Workload,
    bytes: &mut Vec<u8>,
) -> Woven
    requires unstuck { driver.old.1.power ≡ power.Stuck → ⊥ }
    requires unmoved { is_moving driver.old.1 ≡ false }
    requires some { (1 ≤ workload.now.clients) × (workload.now.clients ≤ 64) × (1 ≤ blocks) }
    requires room { 131072 ≤ vec_capacity bytes.old }
    ensures totals { result.totals ≡ totals_of workload.now.requests (entries_since (length driver.old.1.history.facts) driver.new.1.history.facts) }
    ensures causes { HasCauses lv blocks workload.now.requests (first_weaving (state_of S.device driver.old) workload.now.clients workload.now.seed) (state_of S.device driver.new) result }
    ensures weaves { Weaves lv blocks workload.now.requests (first_weaving (state_of S.device driver.old) workload.now.clients workload.now.seed) (state_of S.device driver.new) result.waiting }
    ensures runs { RunsOn (state_of S.device driver.old) (state_of S.device driver.new) }
    ensures room { 131072 ≤ vec_capacity bytes.new }
{
    driver.is_sound();
    let from = driver.history().len();
    let mut table = [Client {
        request: None,
        offset: 0,
    }; 64];
    let clients = &mut table[..workload.clients as usize];
    let mut rng = generator(workload.seed);
    let mut idle = 0;
    let requests = workload.requests;
    draw_all(
        driver, clients, &mut rng, &mut idle, requests, lv, blocks, bytes,
    );
    finish(driver, clients, &mut idle);
    let waiting = is_waiting(clients);
    Woven {
        totals: totals_since(driver.history(), from, requests),
        waiting,
    }
}
