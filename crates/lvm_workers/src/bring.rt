//! A worker that brings up copies while others make requests.
ghost use Rattle.std.specs.Prelude.{◌≡◌, ◌≤◌, ◌<◌, ◌+◌, ◌^◌, ◌∷◌, [], ℕ, true, false, IfErr, IfOk};
ghost use Rattle.lvm_num.specs.Counting.{RoseBy};
ghost use Rattle.lvm_vol.specs.Fronts.{IsPrefixOf};
ghost use Rattle.lvm_turn.specs.Calls.{IsIdlePass};
ghost use Rattle.lvm_turn.specs.Views.{counted, joined, up_to};
ghost use Rattle.lvm_workers.specs.Bringing.{BringGives, HasBrought, HasEnded, HasToured, MadeAt, PlaceTells, WaitsBy};
ghost use Rattle.lvm_workers.specs.Crews.{AllMade, HoldsAllClients, begun_over, seats};
ghost use Rattle.lvm_workers.specs.Knowing.{TallyHasCause, Knows, MayEnd, Refused, RefusedAs, WasUnheard};
ghost use Rattle.lvm_workers.specs.Working.{own_of};
ghost use Rattle.lvm_workers.specs.declared.bring.Brought.{Brought as Said};
ghost use Rattle.lvm_workers.specs.declared.bring.Brought.TheVariants as brought;

use crate::asking::PATIENCE;
use crate::crew::{Crew, workers};
use crate::service::Service;
use crate::work::Tally;
use lvm_turn::{Pass, Turn};
use std::alloc::Global;
use std::sync::Wait;
use std::thread;
use std::thread::Threads;

/// What became of the copy of a place.
#[derive(Clone, Copy)]
pub enum Brought {
    /// It needs nothing, or nothing further: the next place's is to be brought up.
    Next,
    /// Something was done.
    Moved,
    /// None of the transfers that are out has ended.
    Idle,
    /// No further one is to be brought up.
    Over,
}

/// A value of which copies are brought up, one event in each call.
pub trait Brings: Service {
    /// What a call for the copy of a place makes of the value, where this is answered.
    ghost brings: { Self → ℕ → Said → Self → Type 0 };

    /// Makes one event for the copy of a place: opens it, makes a turn while it is brought up, or closes it.
    fn bring(&mut self, at: u32) -> Brought
        requires always { Self.always self.old }
        ensures { BringGives Self.tells Self.past Self.always Self.waits (λ x said y. brings x at said y) self.old result self.new };
}

// Makes one event for the copy of a place, while it has the turn.
fn bring<E: Brings, R: Wait>(
    rt: &R,
    turn: &Turn<E>,
    pass: &mut Pass,
    client: u32,
    at: u32,
) -> Brought
    requires idle { IsIdlePass turn.now.table (client ∷ []) pass.old }
    ensures idle { IsIdlePass turn.now.table (client ∷ []) pass.new }
    ensures knows { Knows pass.old.knows pass.new.knows }
    ensures own { own_of pass.new.knows ≡ own_of pass.old.knows }
    ensures made { MadeAt E.tells E.past E.always E.brings pass.old.knows pass.new.knows at result }
    ensures waited { result ≡ brought.Idle → RoseBy 1 (E.waits pass.old.knows.counts) (E.waits pass.new.knows.counts) }
{
    let mut value = turn.enter(rt, pass);
    let brought = value.bring(at);
    turn.leave(pass, value);
    brought
}

// What became of the copy of a place in the end.
#[derive(Clone, Copy)]
enum Place {
    // It needs nothing further.
    Done,
    // No further one is to be brought up.
    Over,
    // Nothing was heard a million times.
    Unheard,
}

// Brings up the copy of a place, until it needs nothing further, no further one is to be brought up, or nothing was heard a
// million times, with so many before.
fn bring_place<E: Brings, R: Wait>(
    rt: &R,
    turn: &Turn<E>,
    pass: &mut Pass,
    client: u32,
    at: u32,
    idle: &mut u32,
) -> Place
    requires idle { IsIdlePass turn.now.table (client ∷ []) pass.old }
    requires patient { idle.old < 1000000 }
    ensures idle { IsIdlePass turn.now.table (client ∷ []) pass.new }
    ensures knows { Knows pass.old.knows pass.new.knows }
    ensures own { own_of pass.new.knows ≡ own_of pass.old.knows }
    ensures made { PlaceTells (MadeAt E.tells E.past E.always E.brings pass.old.knows pass.new.knows at) idle.new result }
    ensures waited { WaitsBy idle.old idle.new (E.waits pass.old.knows.counts) (E.waits pass.new.knows.counts) }
{
    for _ in rt.forever() {
        match bring(rt, turn, pass, client, at) {
            Brought::Next => return Place::Done,
            Brought::Moved => {}
            Brought::Idle => {
                thread::yield_now();
                *idle += 1;
                if *idle == PATIENCE {
                    return Place::Unheard;
                }
            }
            Brought::Over => return Place::Over,
        }
    }
    unreachable!()
}

// Brings up the copies of one place after the other, until no further one is to be brought up, or nothing was heard a million
// times. Answers whether that was so.
fn bring_all<E: Brings, R: Wait>(rt: &R, turn: &Turn<E>, pass: &mut Pass, client: u32) -> bool
    requires idle { IsIdlePass turn.now.table (client ∷ []) pass.old }
    ensures idle { IsIdlePass turn.now.table (client ∷ []) pass.new }
    ensures knows { Knows pass.old.knows pass.new.knows }
    ensures own { own_of pass.new.knows ≡ own_of pass.old.knows }
    ensures toured { result ≡ false → HasToured (MadeAt E.tells E.past E.always E.brings pass.old.knows pass.new.knows) }
    ensures unheard { result ≡ true → WasUnheard E.waits pass.old.knows pass.new.knows }
{
    let mut idle = 0;
    for at in 0..u32::MAX {
        match bring_place(rt, turn, pass, client, at, &mut idle) {
            Place::Done => {}
            Place::Over => return false,
            Place::Unheard => return true,
        }
    }
    false
}

// The same with a pass that comes back.
fn bring_with<E: Brings, R: Wait>(rt: &R, turn: &Turn<E>, mut pass: Pass, client: u32) -> Pass
    requires idle { IsIdlePass turn.now.table (client ∷ []) pass }
    ensures { HasBrought E.tells E.past E.always E.brings E.waits turn.now.table client pass result }
{
    bring_all(rt, turn, &mut pass, client);
    pass
}

// The workers of a pass, and a thread more that brings up copies with another one.
fn work_and_bring<E: Brings + Send, R: Threads + Wait + Sync>(
    rt: &R,
    alloc: Global,
    turn: &Turn<E>,
    pass: Pass,
    other: Pass,
    client: u32,
    crew: &Crew,
) -> (Result<(Pass, Tally), Pass>, Pass)
    requires at { (pass.table ≡ turn.now.table) × (pass.knows.inside ≡ false) }
    requires holds { pass.knows.clients ≡ up_to crew.now.threads }
    requires few { (1 ≤ crew.now.threads) × (crew.now.threads ≤ E.clients) }
    requires other { IsIdlePass turn.now.table (client ∷ []) other }
    ensures idle { IfOk result.0 (λ r. IsIdlePass turn.now.table (counted crew.now.threads) r.0) }
    ensures knows { IfOk result.0 (λ r. Knows pass.knows r.0.knows) }
    ensures made { IfOk result.0 (λ r. AllMade E.asks (MayEnd (RefusedAs E.tells E.past E.always E.refuses) E.waits pass.knows r.0.knows) crew.now r.0.knows.clients) }
    ensures begun { IfOk result.0 (λ r. r.1.begun ≡ begun_over r.0.knows.clients) }
    ensures all { IfOk result.0 (λ r. r.1.begun + r.1.unbegun ≡ crew.now.requests) }
    ensures cause { IfOk result.0 (λ r. TallyHasCause (Refused E.tells E.past E.always E.refuses) E.waits pass.knows r.0.knows r.1) }
    ensures err { IfErr result.0 (λ p. p ≡ pass) }
    ensures brought { HasBrought E.tells E.past E.always E.brings E.waits turn.now.table client other result.1 }
{
    thread::join(
        rt,
        ||
            requires at { (pass.table ≡ turn.now.table) × (pass.knows.inside ≡ false) }
            requires holds { pass.knows.clients ≡ up_to crew.now.threads }
            requires few { (1 ≤ crew.now.threads) × (crew.now.threads ≤ E.clients) }
        { workers(rt, alloc, turn, pass, crew) },
        || bring_with(rt, turn, other, client),
    )
}

// Takes in the pass of the client that has brought up copies.
fn take_in<E: Brings>(turn: &Turn<E>, pass: &mut Pass, other: Pass)
    requires at { pass.old.table ≡ turn.now.table }
    requires other { (other.table ≡ turn.now.table) × (other.knows.inside ≡ false) }
    ensures joined { pass.new ≡ record pass.old { knows = joined pass.old.knows other.knows } }
    ensures front { IsPrefixOf pass.old.knows.front pass.new.knows.front }
    ensures other_front { IsPrefixOf other.knows.front pass.new.knows.front }
    ensures waits { E.waits pass.old.knows.counts ≤ E.waits pass.new.knows.counts }
    ensures other_waits { E.waits other.knows.counts ≤ E.waits pass.new.knows.counts }
{
    turn.join(pass, other);
}

// The workers, and beside them one more thread that brings up copies, as the client behind those of the crew. It asks for
// nothing, and does its work too where there is no memory for the workers.
fn workers_beside<E: Brings + Send, R: Threads + Wait + Sync>(
    rt: &R,
    alloc: Global,
    turn: &Turn<E>,
    mut pass: Pass,
    crew: &Crew,
) -> Result<(Pass, Tally), Pass>
    requires at { (pass.table ≡ turn.now.table) × (pass.knows.inside ≡ false) }
    requires holds { pass.knows.clients ≡ up_to (crew.now.threads + 1) }
    requires few { (1 ≤ crew.now.threads) × (crew.now.threads ≤ E.clients) × (crew.now.threads + 1 < 2 ^ 32) }
    ensures idle { IfOk result (λ r. IsIdlePass turn.now.table (counted (crew.now.threads + 1)) r.0) }
    ensures knows { IfOk result (λ r. Knows pass.knows r.0.knows) }
    ensures made { IfOk result (λ r. AllMade E.asks (MayEnd (RefusedAs E.tells E.past E.always E.refuses) E.waits pass.knows r.0.knows) crew.now r.0.knows.clients) }
    ensures begun { IfOk result (λ r. r.1.begun ≡ begun_over r.0.knows.clients) }
    ensures all { IfOk result (λ r. r.1.begun + r.1.unbegun ≡ crew.now.requests) }
    ensures cause { IfOk result (λ r. TallyHasCause (Refused E.tells E.past E.always E.refuses) E.waits pass.knows r.0.knows r.1) }
    ensures err { IfErr result (HoldsAllClients turn.now.table (crew.now.threads + 1)) }
    ensures brought { IfOk result (λ r. HasEnded E.tells E.past E.always E.brings E.waits pass.knows r.0.knows) }
{
    let client = crew.threads + 1;
    let other = turn.split(&mut pass, client);
    let (worked, other) = work_and_bring(rt, alloc, turn, pass, other, client, crew);
    match worked {
        Ok((mut pass, tally)) => {
            take_in(turn, &mut pass, other);
            Ok((pass, tally))
        }
        Err(mut pass) => {
            take_in(turn, &mut pass, other);
            Err(pass)
        }
    }
}

/// How many clients a crew has of so many threads: one more where copies are brought up.
pub fn seats(threads: u32, brings: bool) -> u32
    requires { threads + 1 < 2 ^ 32 }
    ensures { result ≡ seats brings threads }
{
    if brings { threads + 1 } else { threads }
}

/// Starts a thread for each client of the crew, which makes its share of the requests, one at a time; where it is asked for,
/// one more brings up copies beside them; and waits for all. Each client's own entries are then what it made, each request
/// once. Where there is no memory for the workers, the pass comes back with all clients.
pub fn run_crew<E: Brings + Send, R: Threads + Wait + Sync>(
    rt: &R,
    alloc: Global,
    turn: &Turn<E>,
    pass: Pass,
    crew: &Crew,
    brings: bool,
) -> Result<(Pass, Tally), Pass>
    requires at { (pass.table ≡ turn.now.table) × (pass.knows.inside ≡ false) }
    requires holds { pass.knows.clients ≡ up_to (seats brings crew.now.threads) }
    requires few { (1 ≤ crew.now.threads) × (crew.now.threads ≤ E.clients) × (crew.now.threads + 1 < 2 ^ 32) }
    ensures idle { IfOk result (λ r. IsIdlePass turn.now.table (counted (seats brings crew.now.threads)) r.0) }
    ensures knows { IfOk result (λ r. Knows pass.knows r.0.knows) }
    ensures made { IfOk result (λ r. AllMade E.asks (MayEnd (RefusedAs E.tells E.past E.always E.refuses) E.waits pass.knows r.0.knows) crew.now r.0.knows.clients) }
    ensures begun { IfOk result (λ r. r.1.begun ≡ begun_over r.0.knows.clients) }
    ensures all { IfOk result (λ r. r.1.begun + r.1.unbegun ≡ crew.now.requests) }
    ensures cause { IfOk result (λ r. TallyHasCause (Refused E.tells E.past E.always E.refuses) E.waits pass.knows r.0.knows r.1) }
    ensures err { IfErr result (HoldsAllClients turn.now.table (seats brings crew.now.threads)) }
    ensures brought { IfOk result (λ r. brings ≡ true → HasEnded E.tells E.past E.always E.brings E.waits pass.knows r.0.knows) }
{
    if brings {
        workers_beside(rt, alloc, turn, pass, crew)
    } else {
        workers(rt, alloc, turn, pass, crew)
    }
}
