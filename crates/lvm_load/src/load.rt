//! A load: workers that share a session.
ghost use Rattle.std.specs.Prelude.{◌≡◌, ◌≤◌, IfSome, false, vec_capacity};
ghost use Rattle.lvm_driver.specs.passed.Going.{is_moving};
ghost use Rattle.lvm_session.specs.declared.open.Power.TheVariants as power;
ghost use Rattle.lvm_session.specs.State.{state_of};
ghost use Rattle.lvm_load.specs.Lending.{IsServing};
ghost use Rattle.lvm_load.specs.Loading.{HasLoaded, NoneHasBegun, crew_of, plan_of};

use crate::lent::{Lending, Lent};
use lvm_disk::Shelf;
use lvm_driver::Driver;
use lvm_turn::Turn;
use lvm_workers::{Crew, Tally, run_crew, seats};
use std::alloc::Global;
use std::marker::{Brand, PhantomData};
use std::sync::Wait;
use std::thread::Threads;

/// So many requests by so many clients, 1 to 128, each in a thread of its own, which are drawn from the seed. Where they keep
/// apart each writes to a track group of its own alone. Where it is asked for, one client more brings up the stale copies of
/// the volume beside them.
#[derive(Clone, Copy)]
pub struct Load {
    pub threads: u32,
    pub requests: u32,
    pub seed: u64,
    pub apart: bool,
    pub sync: bool,
}

/// A session as the workers of a load leave it, and how many requests have begun; none where no memory was found for them.
#[derive(Drop)]
pub struct Loaded<S: Shelf> {
    pub driver: Driver<S>,
    pub bytes: Vec<u8>,
    pub tally: Option<Tally>,
}

fn crew_of(load: &Load) -> Crew
    ensures { result ≡ crew_of load.now }
{
    Crew {
        threads: load.threads,
        requests: load.requests,
        seed: load.seed,
    }
}

// What the value that was lent leaves.
fn given_back<S: Shelf, J: Lending>(lent: Lent<S, J>, tally: Option<Tally>) -> Loaded<S>
    ensures driver { result.driver ≡ lent.driver }
    ensures bytes { result.bytes ≡ lent.bytes }
    ensures tally { result.tally ≡ tally }
{
    let Lent { driver, bytes, .. } = lent;
    Loaded {
        driver,
        bytes,
        tally,
    }
}

// The load whose plan is named.
fn share_as<S: Shelf + Send, J: Lending + Send, R: Threads + Wait + Sync>(
    rt: &R,
    alloc: Global,
    driver: Driver<S>,
    bytes: Vec<u8>,
    lv: u16,
    blocks: u64,
    load: &Load,
) -> Loaded<S>
    requires plan { J.plan ≡ plan_of (state_of S.device driver) lv blocks load.now }
    requires unstuck { driver.1.power ≡ power.Stuck → ⊥ }
    requires unmoved { is_moving driver.1 ≡ false }
    requires fresh { NoneHasBegun driver.1.history.facts }
    requires some { (1 ≤ load.now.threads) × (load.now.threads ≤ 128) × (256 ≤ blocks) }
    requires room { 131072 ≤ vec_capacity bytes }
    ensures serves { IsServing J.plan (state_of S.device result.driver) }
    ensures room { 131072 ≤ vec_capacity result.bytes }
    ensures made { IfSome result.tally (HasLoaded J.plan load.now (state_of S.device result.driver)) }
{
    driver.is_sound();
    let lent: Lent<S, J> = Lent {
        driver,
        bytes,
        lv,
        blocks,
        apart: load.apart,
        sync: load.sync,
        named: PhantomData,
    };
    let (turn, pass) = match Turn::new(alloc, lent, seats(load.threads, load.sync)) {
        Ok(made) => made,
        Err(lent) => return given_back(lent, None),
    };
    match run_crew(rt, alloc, &turn, pass, &crew_of(load), load.sync) {
        Ok((pass, tally)) => given_back(turn.close(pass), Some(tally)),
        Err(pass) => given_back(turn.close(pass), None),
    }
}

/// Lends the session to as many workers as the load has clients, each in a thread of its own, which make its requests of a
/// volume of so many blocks, and takes it back once all have ended. Nothing is promised of when that is, nor that it comes. A
/// request may be open still, where nothing was heard of it, and so may a copy.
pub fn share_session<S: Shelf + Send, R: Threads + Wait + Sync>(
    rt: &R,
    alloc: Global,
    driver: Driver<S>,
    bytes: Vec<u8>,
    lv: u16,
    blocks: u64,
    load: &Load,
) -> Loaded<S>
    requires unstuck { driver.1.power ≡ power.Stuck → ⊥ }
    requires unmoved { is_moving driver.1 ≡ false }
    requires fresh { NoneHasBegun driver.1.history.facts }
    requires some { (1 ≤ load.now.threads) × (load.now.threads ≤ 128) × (256 ≤ blocks) }
    requires room { 131072 ≤ vec_capacity bytes }
    ensures serves { IsServing (plan_of (state_of S.device driver) lv blocks load.now) (state_of S.device result.driver) }
    ensures room { 131072 ≤ vec_capacity result.bytes }
    ensures made { IfSome result.tally (HasLoaded (plan_of (state_of S.device driver) lv blocks load.now) load.now (state_of S.device result.driver)) }
{
    share_as::<S, Brand, R>(rt, alloc, driver, bytes, lv, blocks, load)
}
