//! One worker.
ghost use Rattle.std.specs.Prelude.{◌≡◌, ◌≤◌, ◌+◌, ◌∷◌, []};
ghost use Rattle.lvm_turn.specs.Calls.{IsIdlePass};
ghost use Rattle.lvm_workers.specs.Draws.{after_draw, draw_at};
ghost use Rattle.lvm_workers.specs.Knowing.{TallyHasCause, Knows, MayEnd, Refused, RefusedAs, first_own};
ghost use Rattle.lvm_workers.specs.Making.{HasMade};
ghost use Rattle.lvm_workers.specs.Working.{AwaitsIn, IsWaited, ServeTells, WaitTells};

use crate::asking::{Answer, Awaited, ask, look};
use crate::service::{Seen, Service};
use crate::words::{draw_request, generator};
use lvm_turn::{Pass, Turn};
use rand_pcg::Lcg64Xsh32;
use std::sync::Wait;
use std::thread;

/// What a worker is to make: requests of a client, which are drawn from the seed.
#[derive(Clone, Copy)]
pub struct Job {
    pub client: u32,
    pub requests: u32,
    pub seed: u64,
}

/// How many requests have begun, and how many haven't; and whether nothing was heard of one.
#[derive(Clone, Copy)]
pub struct Tally {
    pub begun: u32,
    pub unbegun: u32,
    pub unheard: bool,
}

// What became of a request that was drawn.
#[derive(Clone, Copy)]
pub(crate) enum Served {
    // Its answer was taken.
    Answered,
    // It wasn't taken, and a later one may be.
    Passed,
    // It wasn't taken, and no later one will be.
    Refused,
    // It has begun, and nothing is heard of it.
    Unheard,
}

// Looks for the answer of a request until it is taken, or nothing was heard a million times. Answers whether it was.
fn wait_for<E: Service, R: Wait>(
    rt: &R,
    turn: &Turn<E>,
    pass: &mut Pass,
    client: u32,
    awaited: &mut Awaited,
) -> bool
    requires idle { IsIdlePass turn.now.table (client ∷ []) pass.old }
    requires awaits { AwaitsIn awaited.old.id pass.old.knows }
    requires unseen { awaited.old.idle ≡ 0 }
    ensures idle { IsIdlePass turn.now.table (client ∷ []) pass.new }
    ensures knows { Knows pass.old.knows pass.new.knows }
    ensures tells { WaitTells E.waits awaited.old.id pass.old.knows result pass.new.knows }
    ensures patience { IsWaited result awaited.new }
{
    for _ in rt.forever() {
        match look(rt, turn, pass, client, awaited) {
            Seen::Taken => return true,
            Seen::Moved => {}
            Seen::Idle => {
                thread::yield_now();
                if awaited.is_given_up() {
                    return false;
                }
            }
        }
    }
    unreachable!()
}

// Draws a request, asks for it, and waits for its answer.
fn serve<E: Service, R: Wait>(
    rt: &R,
    turn: &Turn<E>,
    pass: &mut Pass,
    client: u32,
    number: u32,
    rng: &mut Lcg64Xsh32,
) -> Served
    requires idle { IsIdlePass turn.now.table (client ∷ []) pass.old }
    requires client { (1 ≤ client) × (client ≤ E.clients) }
    ensures idle { IsIdlePass turn.now.table (client ∷ []) pass.new }
    ensures knows { Knows pass.old.knows pass.new.knows }
    ensures rng { rng.new ≡ after_draw rng.old }
    ensures tells { ServeTells (E.asks client number (draw_at rng.old)) (RefusedAs E.tells E.past E.always E.refuses) E.waits pass.old.knows result pass.new.knows }
{
    let drawn = draw_request(rng);
    match ask(rt, turn, pass, client, number, &drawn) {
        Answer::Begun(mut awaited) => if wait_for(rt, turn, pass, client, &mut awaited) {
            Served::Answered
        } else {
            Served::Unheard
        },
        Answer::Passed => Served::Passed,
        Answer::Refused => Served::Refused,
    }
}

/// Makes the requests of a job, one at a time. It ends early where no further one may begin, and where nothing is heard of one.
pub(crate) fn work<E: Service, R: Wait>(rt: &R, turn: &Turn<E>, pass: &mut Pass, job: &Job) -> Tally
    requires idle { IsIdlePass turn.now.table (job.now.client ∷ []) pass.old }
    requires client { (1 ≤ job.now.client) × (job.now.client ≤ E.clients) }
    requires fresh { first_own pass.old.knows.clients ≡ [] }
    ensures idle { IsIdlePass turn.now.table (job.now.client ∷ []) pass.new }
    ensures knows { Knows pass.old.knows pass.new.knows }
    ensures made { HasMade (E.asks job.now.client) (MayEnd (RefusedAs E.tells E.past E.always E.refuses) E.waits pass.old.knows pass.new.knows) job.now.seed job.now.requests result.begun (first_own pass.new.knows.clients) }
    ensures all { result.begun + result.unbegun ≡ job.now.requests }
    ensures cause { TallyHasCause (Refused E.tells E.past E.always E.refuses) E.waits pass.old.knows pass.new.knows result }
{
    let mut rng = generator(job.seed);
    let mut begun = 0;
    for number in 0..job.requests {
        match serve(rt, turn, pass, job.client, number, &mut rng) {
            Served::Answered => begun += 1,
            Served::Passed => {}
            Served::Refused => return Tally {
                begun,
                unbegun: job.requests - begun,
                unheard: false,
            },
            Served::Unheard => return Tally {
                begun: begun + 1,
                unbegun: job.requests - begun - 1,
                unheard: true,
            },
        }
    }
    Tally {
        begun,
        unbegun: job.requests - begun,
        unheard: false,
    }
}
