//! A load, from its workers to its totals.
ghost use Rattle.std.specs.Prelude.{◌≡◌, ◌≤◌, None, true, false, IfNone, IfSome, vec_capacity};
ghost use Rattle.lvm_driver.specs.passed.Going.{RunsOn, is_moving};
ghost use Rattle.lvm_session.specs.declared.open.Power.TheVariants as power;
ghost use Rattle.lvm_session.specs.State.{state_of};
ghost use Rattle.lvm_load.specs.Lending.{KeepsServing};
ghost use Rattle.lvm_load.specs.Loading.{NoneHasBegun};
ghost use Rattle.lvm_load.specs.Serving.{IsLoadedBy};
ghost use Rattle.lvm_load.specs.Settling.{Settles};
ghost use Rattle.lvm_load.specs.Bringing.{ClosesEnded, EndsBehind, IsSynced, SyncsBehind, is_on, is_unheard};

use crate::load::{Load, Loaded, share_session};
use crate::totals::totals_since;
use crate::workload::Woven;
use lvm_core::CommitFault;
use lvm_disk::Shelf;
use lvm_driver::Driver;
use lvm_ranges::{SyncFault, sync_volume};
use lvm_session::{CopyState, Power};
use lvm_transfer::Patience;
use std::alloc::Global;
use std::sync::Wait;
use std::thread::Threads;

/// How the stale copies of a volume were brought up behind the workers: how many, or the fault by which one stayed stale, or by
/// which it ended. And how many votes there were then, of how many.
#[derive(Clone, Copy)]
pub struct Synced {
    pub result: Result<u32, SyncFault>,
    pub have: u32,
    pub total: u32,
}

/// The session that a load leaves, and how its requests ended; none where no memory was found for its workers. And how copies
/// were brought up behind them, if they were.
#[derive(Drop)]
pub struct Served<S: Shelf> {
    pub driver: Driver<S>,
    pub bytes: Vec<u8>,
    pub woven: Option<Woven>,
    pub synced: Option<Synced>,
}

// Makes turns until nothing may be made, or the session is over. Answers whether nothing was heard of a transfer a million
// times.
fn settle<S: Shelf>(driver: &mut Driver<S>) -> bool
    requires unstuck { driver.old.1.power ≡ power.Stuck → ⊥ }
    ensures settles { Settles (state_of S.device driver.old) (state_of S.device driver.new) result }
    ensures runs { RunsOn (state_of S.device driver.old) (state_of S.device driver.new) }
{
    let mut patience = Patience::whole();
    match driver.drain(&mut patience) {
        Err(CommitFault::Stuck) => true,
        _ => false,
    }
}

// Closes the copy that is open, unless it is running.
fn close_ended<S: Shelf>(driver: &mut Driver<S>)
    ensures closes { ClosesEnded (state_of S.device driver.old) (state_of S.device driver.new) }
    ensures runs { RunsOn (state_of S.device driver.old) (state_of S.device driver.new) }
{
    match driver.copy_state() {
        CopyState::Running { .. } => {}
        _ => driver.close_copy(),
    }
}

// Brings up the stale copies of a volume.
fn sync<S: Shelf>(driver: &mut Driver<S>, lv: u16) -> Synced
    requires unstuck { driver.old.1.power ≡ power.Stuck → ⊥ }
    ensures { IsSynced lv (state_of S.device driver.old) (state_of S.device driver.new) result }
{
    let mut patience = Patience::whole();
    let result = sync_volume(driver, lv, &mut patience);
    let (have, total) = driver.votes();
    Synced {
        result,
        have,
        total,
    }
}

// Whether nothing was heard of a transfer while copies were brought up.
fn is_unheard(synced: &Synced) -> bool
    ensures { result ≡ is_unheard synced.now.result }
{
    match synced.result {
        Err(SyncFault::Stuck) => true,
        _ => false,
    }
}

// Closes the copy that the workers leave, brings up the stale copies of the volume, and makes turns until nothing may be made.
// Answers also whether nothing was heard of a transfer a million times.
fn sync_behind<S: Shelf>(driver: &mut Driver<S>, lv: u16) -> (Synced, bool)
    requires unstuck { driver.old.1.power ≡ power.Stuck → ⊥ }
    ensures syncs { SyncsBehind lv (state_of S.device driver.old) (state_of S.device driver.new) result.0 result.1 }
    ensures keeps { KeepsServing true (state_of S.device driver.old) (state_of S.device driver.new) }
{
    close_ended(driver);
    let synced = sync(driver, lv);
    if is_unheard(&synced) {
        return (synced, true);
    }
    let waiting = settle(driver);
    (synced, waiting)
}

fn is_on<S: Shelf>(driver: &Driver<S>) -> bool
    ensures { result ≡ is_on driver.now.1.power }
{
    match driver.power() {
        Power::On => true,
        Power::Off | Power::Dark | Power::Stuck => false,
    }
}

// What follows the workers and the turns behind them: where copies are brought up and the session is on, they are so once more,
// unless nothing was heard of a transfer. Answers also whether nothing was.
fn end_behind<S: Shelf>(
    driver: &mut Driver<S>,
    lv: u16,
    sync: bool,
    waiting: bool,
) -> (Option<Synced>, bool)
    requires unstuck { driver.old.1.power ≡ power.Stuck → ⊥ }
    ensures ends { EndsBehind sync lv (state_of S.device driver.old) waiting (state_of S.device driver.new) result.0 result.1 }
    ensures keeps { KeepsServing sync (state_of S.device driver.old) (state_of S.device driver.new) }
{
    if sync && !waiting && is_on(driver) {
        let (synced, waiting) = sync_behind(driver, lv);
        (Some(synced), waiting)
    } else {
        (None, waiting)
    }
}

/// Lends the session to the workers of a load, makes turns behind them until nothing may be made, brings up the volume's stale
/// copies where that is asked for, and counts what the history tells then. It may wait for the workers.
pub fn serve_load<S: Shelf + Send, R: Threads + Wait + Sync>(
    rt: &R,
    alloc: Global,
    driver: Driver<S>,
    bytes: Vec<u8>,
    lv: u16,
    blocks: u64,
    load: &Load,
) -> Served<S>
    requires unstuck { driver.1.power ≡ power.Stuck → ⊥ }
    requires unmoved { is_moving driver.1 ≡ false }
    requires fresh { NoneHasBegun driver.1.history.facts }
    requires some { (1 ≤ load.now.threads) × (load.now.threads ≤ 128) × (256 ≤ blocks) }
    requires room { 131072 ≤ vec_capacity bytes }
    ensures keeps { KeepsServing load.now.sync (state_of S.device driver) (state_of S.device result.driver) }
    ensures room { 131072 ≤ vec_capacity result.bytes }
    ensures loaded { IfSome result.woven (λ woven. IsLoadedBy lv blocks load.now (state_of S.device driver) (state_of S.device result.driver) woven result.synced) }
    ensures none { IfNone result.woven (result.synced ≡ None) }
{
    let from = driver.history().len();
    let Loaded {
        driver,
        bytes,
        tally,
    } = share_session(rt, alloc, driver, bytes, lv, blocks, load);
    let mut driver = driver;
    if tally.is_none() {
        return Served {
            driver,
            bytes,
            woven: None,
            synced: None,
        };
    }
    let waiting = settle(&mut driver);
    let (synced, waiting) = end_behind(&mut driver, lv, load.sync, waiting);
    let totals = totals_since(driver.history(), from, load.requests);
    Served {
        driver,
        bytes,
        woven: Some(Woven { totals, waiting }),
        synced,
    }
}
