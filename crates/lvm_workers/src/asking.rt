//! What a worker asks of the value, one call at a time, while it has the turn.
ghost use Rattle.std.specs.Prelude.{◌≡◌, ◌≤◌, ◌<◌, ◌==◌, ◌∷◌, []};
ghost use Rattle.lvm_num.specs.Counting.{RoseBy};
ghost use Rattle.lvm_turn.specs.Calls.{IsIdlePass};
ghost use Rattle.lvm_workers.specs.Knowing.{Knows, RefusedAs, WasMade};
ghost use Rattle.lvm_workers.specs.Working.{AskTells, AwaitsIn, IsUnseen, LookTells, asked_of, seen_so};
ghost use Rattle.lvm_workers.specs.declared.service.Seen.TheVariants as seen;

use crate::service::{Asked, Seen, Service};
use crate::words::Draw;
use lvm_turn::{Pass, Turn};
use std::sync::Wait;

/// So often in a row may nothing be heard of what is awaited.
pub const PATIENCE: u32 = 1_000_000;

/// A request that has begun, under this number, and how often nothing was heard when it was looked for. Only asking makes one,
/// and only looking counts.
#[derive(Drop)]
pub(crate) struct Awaited {
    id: u64,
    idle: u32,
}

/// What became of a request that was asked for.
#[derive(Drop)]
pub(crate) enum Answer {
    /// It has begun, and is waited for.
    Begun(Awaited),
    /// It isn't taken, and a later one may be.
    Passed,
    /// It isn't taken, and no later one will be.
    Refused,
}

impl Awaited {
    /// Whether nothing was heard a million times.
    pub(crate) fn is_given_up(&self) -> bool
        ensures { result ≡ (self.now.idle == 1000000) }
    {
        self.idle == PATIENCE
    }

    // Counts a look at which this was seen.
    fn count(&mut self, seen: Seen)
        requires { self.old.idle < 1000000 }
        ensures { self.new ≡ seen_so seen self.old }
    {
        if let Seen::Idle = seen {
            self.idle += 1;
        }
    }
}

// The answer, with nothing looked for yet.
fn answer_of(asked: Asked) -> Answer
    ensures says { asked_of result ≡ asked }
    ensures unseen { IsUnseen result }
{
    match asked {
        Asked::Begun(id) => Answer::Begun(Awaited { id, idle: 0 }),
        Asked::Full => Answer::Passed,
        Asked::Refused => Answer::Refused,
    }
}

/// Asks for a request that is drawn, while it has the turn.
pub(crate) fn ask<E: Service, R: Wait>(
    rt: &R,
    turn: &Turn<E>,
    pass: &mut Pass,
    client: u32,
    number: u32,
    drawn: &Draw,
) -> Answer
    requires idle { IsIdlePass turn.now.table (client ∷ []) pass.old }
    requires client { (1 ≤ client) × (client ≤ E.clients) }
    ensures idle { IsIdlePass turn.now.table (client ∷ []) pass.new }
    ensures knows { Knows pass.old.knows pass.new.knows }
    ensures tells { AskTells (E.asks client number drawn.now) (RefusedAs E.tells E.past E.always E.refuses) client pass.old.knows (asked_of result) pass.new.knows }
    ensures unseen { IsUnseen result }
{
    let mut value = turn.enter(rt, pass);
    let asked = value.ask(client, number, drawn);
    turn.leave(pass, value);
    answer_of(asked)
}

/// Looks for the answer of a request that is waited for, while it has the turn.
pub(crate) fn look<E: Service, R: Wait>(
    rt: &R,
    turn: &Turn<E>,
    pass: &mut Pass,
    client: u32,
    awaited: &mut Awaited,
) -> Seen
    requires idle { IsIdlePass turn.now.table (client ∷ []) pass.old }
    requires awaits { AwaitsIn awaited.old.id pass.old.knows }
    requires patient { awaited.old.idle < 1000000 }
    ensures idle { IsIdlePass turn.now.table (client ∷ []) pass.new }
    ensures knows { Knows pass.old.knows pass.new.knows }
    ensures tells { LookTells awaited.old.id pass.old.knows result pass.new.knows }
    ensures made { WasMade E.tells E.past E.always (λ x y. E.looks x client awaited.old.id result y) pass.old.knows pass.new.knows }
    ensures waited { result ≡ seen.Idle → RoseBy 1 (E.waits pass.old.knows.counts) (E.waits pass.new.knows.counts) }
    ensures counted { awaited.new ≡ seen_so result awaited.old }
{
    let mut value = turn.enter(rt, pass);
    let seen = value.look(client, awaited.id);
    turn.leave(pass, value);
    awaited.count(seen);
    seen
}
