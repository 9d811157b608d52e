//! All workers.
ghost use Rattle.std.specs.Prelude.{◌≡◌, ◌≤◌, ◌<◌, ◌+◌, ◌^◌, [], ◌∷◌, false, IfOk, IfErr, vec_len};
ghost use Rattle.lvm_turn.specs.Calls.{IsIdlePass};
ghost use Rattle.lvm_turn.specs.Views.{counted, up_to};
ghost use Rattle.lvm_workers.specs.Crews.{AllDone, AllIdle, AllMade, AllReady, AllWorked, HasWorked, HasMadeNothing, SeenAs, added, begun_over, job_of, no_tally, share};
ghost use Rattle.lvm_workers.specs.Knowing.{TallyHasCause, Knows, MayEnd, Refused, RefusedAs};

use crate::service::Service;
use crate::work::{Job, Tally, work};
use crossbeam_utils::CachePadded;
use lvm_turn::{Pass, Turn};
use std::alloc::{AllocError, Global};
use std::sync::Wait;
use std::thread;
use std::thread::Threads;

/// What a crew is to make: so many requests by so many clients, numbered from 1, which are drawn from the seed. Each client
/// makes as many, but for one more by the first ones where they don't come out even.
#[derive(Clone, Copy)]
pub struct Crew {
    pub threads: u32,
    pub requests: u32,
    pub seed: u64,
}

// A worker, with the pass of its client.
#[derive(Drop)]
pub(crate) struct Worker {
    pub(crate) pass: Pass,
    pub(crate) job: Job,
    pub(crate) tally: CachePadded<Tally>,
}

// How many requests a client makes.
fn share(crew: &Crew, client: u32) -> u32
    requires { (1 ≤ crew.now.threads) × (1 ≤ client) }
    ensures { result ≡ share crew.now client }
{
    let each = crew.requests / crew.threads;
    if client <= crew.requests % crew.threads {
        each + 1
    } else {
        each
    }
}

// The job of a client.
fn job_of(crew: &Crew, client: u32) -> Job
    requires { (1 ≤ crew.now.threads) × (1 ≤ client) }
    ensures { result ≡ job_of crew.now client }
{
    Job {
        client,
        requests: share(crew, client),
        seed: crew.seed.wrapping_add(u64::from(client)),
    }
}

fn no_tally() -> Tally
    ensures { result ≡ no_tally }
{
    Tally {
        begun: 0,
        unbegun: 0,
        unheard: false,
    }
}

// A worker with a pass for each client, the highest first.
fn hand_out<E: Service>(
    alloc: Global,
    turn: &Turn<E>,
    pass: &mut Pass,
    crew: &Crew,
) -> Result<Vec<Worker>, AllocError>
    requires at { (pass.old.table ≡ turn.now.table) × (pass.old.knows.inside ≡ false) }
    requires holds { pass.old.knows.clients ≡ up_to crew.now.threads }
    requires few { (1 ≤ crew.now.threads) × (crew.now.threads ≤ E.clients) }
    ensures idle { IfOk result (λ _. IsIdlePass turn.now.table [] pass.new) }
    ensures knows { IfOk result (λ _. Knows pass.old.knows pass.new.knows × SeenAs pass.old.knows pass.new.knows) }
    ensures ready { IfOk result (λ all. (vec_len all ≡ crew.now.threads) × AllReady turn.now.table E.clients pass.old.knows crew.now all.items) }
    ensures err { IfErr result (λ _. pass.new ≡ pass.old) }
{
    let mut workers = Vec::with_capacity(alloc, crew.threads as usize)?;
    for k in 0..crew.threads {
        let client = crew.threads - k;
        let worker = Worker {
            pass: turn.split(pass, client),
            job: job_of(crew, client),
            tally: CachePadded::new(no_tally()),
        };
        let Ok(()) = workers.push(worker) else {
            unreachable!()
        };
    }
    Ok(workers)
}

// A worker does its job.
fn work_one<E: Service, R: Wait>(rt: &R, turn: &Turn<E>, worker: &mut Worker)
    requires { HasMadeNothing turn.now.table E.clients worker.old }
    ensures { HasWorked E.asks (RefusedAs E.tells E.past E.always E.refuses) E.waits turn.now.table worker.old worker.new }
{
    let tally = work(rt, turn, &mut worker.pass, &worker.job);
    worker.tally = CachePadded::new(tally);
}

// Each worker does its job, in a thread of its own.
fn work_all<E: Service + Send, R: Threads + Wait + Sync>(
    rt: &R,
    turn: &Turn<E>,
    workers: &mut Vec<Worker>,
    threads: u32,
)
    requires some { 1 ≤ threads }
    requires ready { AllIdle turn.now.table E.clients workers.old.items }
    ensures same { vec_len workers.new ≡ vec_len workers.old }
    ensures worked { AllWorked E.asks (RefusedAs E.tells E.past E.always E.refuses) E.waits turn.now.table workers.old.items workers.new.items }
{
    let one = |_: usize, worker: &mut Worker|
        requires { HasMadeNothing turn.now.table E.clients worker.old }
        ensures { HasWorked E.asks (RefusedAs E.tells E.past E.always E.refuses) E.waits turn.entry.now.table worker.old worker.new }
    { work_one(rt, turn, worker) };
    thread::for_each_mut(rt, workers.as_mut_slice(), threads as usize, &one);
}

impl Tally {
    // Takes in another.
    fn add(&mut self, other: &Tally)
        requires { (self.old.begun + other.now.begun < 2 ^ 32) × (self.old.unbegun + other.now.unbegun < 2 ^ 32) }
        ensures { self.new ≡ added self.old other.now }
    {
        self.begun += other.begun;
        self.unbegun += other.unbegun;
        self.unheard = self.unheard || other.unheard;
    }
}

// Takes in the workers' passes, and adds their tallies.
fn gather<E: Service>(
    turn: &Turn<E>,
    pass: &mut Pass,
    mut workers: Vec<Worker>,
    crew: &Crew,
    requests: u32,
) -> Tally
    requires all { requests ≡ crew.now.requests }
    requires idle { IsIdlePass turn.now.table [] pass.old }
    requires some { 1 ≤ crew.now.threads }
    requires done { (vec_len workers ≡ crew.now.threads) × AllDone E.asks (RefusedAs E.tells E.past E.always E.refuses) E.waits turn.now.table pass.old.knows crew.now workers.items }
    ensures idle { IsIdlePass turn.now.table (counted crew.now.threads) pass.new }
    ensures knows { Knows pass.old.knows pass.new.knows }
    ensures made { AllMade E.asks (MayEnd (RefusedAs E.tells E.past E.always E.refuses) E.waits pass.old.knows pass.new.knows) crew.now pass.new.knows.clients }
    ensures begun { result.begun ≡ begun_over pass.new.knows.clients }
    ensures all { result.begun + result.unbegun ≡ crew.now.requests }
    ensures cause { TallyHasCause (Refused E.tells E.past E.always E.refuses) E.waits pass.old.knows pass.new.knows result }
{
    let mut tally = no_tally();
    while let Some(worker) = workers.pop() {
        let Worker {
            pass: other,
            job: _,
            tally: part,
        } = worker;
        turn.join(pass, other);
        tally.add(&part.into_inner());
    }
    tally
}

/// Starts a thread for each client of the crew, which makes its share of the requests, one at a time, and waits for all. Each
/// client's own entries are then what it made, each request once. Where there is no memory, the pass comes back as it was.
pub(crate) fn workers<E: Service + Send, R: Threads + Wait + Sync>(
    rt: &R,
    alloc: Global,
    turn: &Turn<E>,
    mut pass: Pass,
    crew: &Crew,
) -> Result<(Pass, Tally), Pass>
    requires at { (pass.table ≡ turn.now.table) × (pass.knows.inside ≡ false) }
    requires holds { pass.knows.clients ≡ up_to crew.now.threads }
    requires few { (1 ≤ crew.now.threads) × (crew.now.threads ≤ E.clients) }
    ensures idle { IfOk result (λ r. IsIdlePass turn.now.table (counted crew.now.threads) r.0) }
    ensures knows { IfOk result (λ r. Knows pass.knows r.0.knows) }
    ensures made { IfOk result (λ r. AllMade E.asks (MayEnd (RefusedAs E.tells E.past E.always E.refuses) E.waits pass.knows r.0.knows) crew.now r.0.knows.clients) }
    ensures begun { IfOk result (λ r. r.1.begun ≡ begun_over r.0.knows.clients) }
    ensures all { IfOk result (λ r. r.1.begun + r.1.unbegun ≡ crew.now.requests) }
    ensures cause { IfOk result (λ r. TallyHasCause (Refused E.tells E.past E.always E.refuses) E.waits pass.knows r.0.knows r.1) }
    ensures err { IfErr result (λ p. p ≡ pass) }
{
    let Ok(mut all) = hand_out(alloc, turn, &mut pass, crew) else {
        return Err(pass);
    };
    work_all(rt, turn, &mut all, crew.threads);
    let tally = gather(turn, &mut pass, all, crew, crew.requests);
    Ok((pass, tally))
}
