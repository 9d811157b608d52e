ghost use Rattle.std.specs.Prelude.{◌≡◌, ◌≢◌, ◌<◌, ◌≤◌, ℕ, List, [], ◌∷◌, ◌++◌};
ghost use Rattle.lvm_vol.specs.Facts.{Fact};
ghost use Rattle.lvm_vol.specs.Fronts.{own};
ghost use Rattle.lvm_turn.specs.Views.{numbers, up_to};
ghost use Rattle.lvm_turn.specs.Calls.{IsIdlePass};

use crate::tests::fixtures::check;
use lvm_history::History;
use lvm_num::Memory;
use lvm_turn::{Pass, Turn};
use lvm_vol::{Entry, Past, Shown, Vol};
use std::alloc::Global;
use std::process::Abort;
use std::sync::Wait;
use std::thread;
use std::thread::Threads;

// How often each thread enters.
const ROUNDS: u32 = 100;

// A history behind a turn, and how often it was lent.
#[derive(Drop)]
struct Desk {
    history: History,
    lent: u64,
}

impl Past for Desk {
    ghost use Rattle.std.specs.Prelude.{None};

    ghost past = { λ _. None };
}

impl Shown for Desk {
    ghost tells = { λ d. record { entries = d.history.facts; fixed = d.history.run ∷ []; counts = d.lent ∷ [] } };

    ghost always = { λ _. Unit {0} };

    fn shown(&self) -> u64 {
        u64::from(self.history.len())
    }
}

impl Desk {
    // With room for a hundred rounds of four threads.
    fn new(alloc: Global) -> Result<Desk, Memory> {
        let history = History::new(alloc, 7, 1300, 210_000)?;
        Ok(Desk { history, lent: 0 })
    }

    // Begins a request of this client, where there is room.
    fn begin(&mut self, client: u32)
        ensures run { self.new.history.run ≡ self.old.history.run }
        ensures lent { self.old.lent ≤ self.new.lent }
        ensures begun { (more : List Fact) × (self.new.history.facts ≡ self.old.history.facts ++ more) × ((c : ℕ) → c ≢ client → own c more ≡ []) }
    {
        self.lent = self.lent.saturating_add(1);
        if self.history.spare_entries() >= 3 && self.history.spare_bytes() >= 512 {
            self.history.begin(client, Vol::Disk(0), 0, 1, None);
        }
    }

    // How many requests the client began.
    fn begun_by(&self, client: u32) -> u32 {
        (0..self.history.len())
            .filter(
                |&k| matches!(self.history.entry(k), Entry::Begun { client: c, .. } if c == client),
            )
            .count() as u32
    }
}

// Enters and leaves the value as it was.
fn visit<V: Shown, R: Wait>(rt: &R, turn: &Turn<V>, mut pass: Pass, client: u32) -> Pass
    requires { IsIdlePass turn.now.table (client ∷ []) pass }
    ensures { IsIdlePass turn.now.table (client ∷ []) result }
{
    let value = turn.enter(rt, &mut pass);
    turn.leave(&mut pass, value);
    pass
}

// Two passes at once, over any value that may go from thread to thread.
fn visit_both<V: Shown + Send, R: Threads + Wait + Sync>(
    rt: &R,
    turn: &Turn<V>,
    one: Pass,
    client: u32,
    two: Pass,
    other: u32,
) -> (Pass, Pass)
    requires one { IsIdlePass turn.now.table (client ∷ []) one }
    requires two { IsIdlePass turn.now.table (other ∷ []) two }
    ensures one { IsIdlePass turn.now.table (client ∷ []) result.0 }
    ensures two { IsIdlePass turn.now.table (other ∷ []) result.1 }
{
    thread::join(
        rt,
        move || visit(rt, turn, one, client),
        move || visit(rt, turn, two, other),
    )
}

// Enters a hundred times, each time to begin a request of its client.
fn work<R: Wait>(rt: &R, turn: &Turn<Desk>, mut pass: Pass, client: u32) -> Pass
    requires { IsIdlePass turn.now.table (client ∷ []) pass }
    ensures { IsIdlePass turn.now.table (client ∷ []) result }
{
    for _ in 0..ROUNDS {
        let mut desk = turn.enter(rt, &mut pass);
        desk.begin(client);
        turn.leave(&mut pass, desk);
    }
    pass
}

// Two workers at once.
fn work_both<R: Threads + Wait + Sync>(
    rt: &R,
    turn: &Turn<Desk>,
    one: Pass,
    client: u32,
    two: Pass,
    other: u32,
) -> (Pass, Pass)
    requires one { IsIdlePass turn.now.table (client ∷ []) one }
    requires two { IsIdlePass turn.now.table (other ∷ []) two }
    ensures one { IsIdlePass turn.now.table (client ∷ []) result.0 }
    ensures two { IsIdlePass turn.now.table (other ∷ []) result.1 }
{
    thread::join(
        rt,
        move || work(rt, turn, one, client),
        move || work(rt, turn, two, other),
    )
}

// Four workers at once.
fn work_all<R: Threads + Wait + Sync>(
    rt: &R,
    turn: &Turn<Desk>,
    passes: (Pass, Pass, Pass, Pass),
) -> ((Pass, Pass), (Pass, Pass))
    requires one { IsIdlePass turn.now.table (1 ∷ []) passes.0 }
    requires two { IsIdlePass turn.now.table (2 ∷ []) passes.1 }
    requires three { IsIdlePass turn.now.table (3 ∷ []) passes.2 }
    requires four { IsIdlePass turn.now.table (4 ∷ []) passes.3 }
    ensures one { IsIdlePass turn.now.table (1 ∷ []) result.0.0 }
    ensures two { IsIdlePass turn.now.table (2 ∷ []) result.0.1 }
    ensures three { IsIdlePass turn.now.table (3 ∷ []) result.1.0 }
    ensures four { IsIdlePass turn.now.table (4 ∷ []) result.1.1 }
{
    let (one, two, three, four) = passes;
    thread::join(
        rt,
        move ||
            requires one { IsIdlePass turn.now.table (1 ∷ []) one }
            requires two { IsIdlePass turn.now.table (2 ∷ []) two }
        { work_both(rt, turn, one, 1, two, 2) },
        move ||
            requires three { IsIdlePass turn.now.table (3 ∷ []) three }
            requires four { IsIdlePass turn.now.table (4 ∷ []) four }
        { work_both(rt, turn, three, 3, four, 4) },
    )
}

// A turn over an empty history, and the pass of all clients.
fn opened(rt: &(impl Abort + AllocGlobal), clients: u32) -> (Turn<Desk>, Pass)
    requires { 0 < clients }
    ensures clients { result.0.clients ≡ clients }
    ensures idle { IsIdlePass result.0.table (numbers (up_to clients)) result.1 }
{
    let desk = Desk::new(rt.alloc()).expect(rt, "memory");
    let Ok(made) = Turn::new(rt.alloc(), desk, clients) else {
        panic!(rt; "memory")
    };
    made
}

// The same with a pass of each of two clients.
fn opened_for_two(rt: &(impl Abort + AllocGlobal)) -> (Turn<Desk>, Pass, Pass)
    ensures clients { result.0.clients ≡ 2 }
    ensures one { IsIdlePass result.0.table (1 ∷ []) result.1 }
    ensures two { IsIdlePass result.0.table (2 ∷ []) result.2 }
{
    let (turn, mut one) = opened(rt, 2);
    let two = turn.split(&mut one, 2);
    (turn, one, two)
}

// What the two leave.
fn closed_by_two(turn: Turn<Desk>, mut one: Pass, two: Pass) -> Desk
    requires clients { turn.clients ≡ 2 }
    requires one { IsIdlePass turn.table (1 ∷ []) one }
    requires two { IsIdlePass turn.table (2 ∷ []) two }
{
    turn.join(&mut one, two);
    turn.close(one)
}

// Enters without waiting, to begin a request of its client.
fn work_once(rt: &impl Abort, turn: &Turn<Desk>, mut pass: Pass, client: u32) -> Pass
    requires { IsIdlePass turn.now.table (client ∷ []) pass }
    ensures { IsIdlePass turn.now.table (client ∷ []) result }
{
    let Some(mut desk) = turn.try_enter(&mut pass) else {
        panic!(rt; "the turn is free")
    };
    desk.begin(client);
    turn.leave(&mut pass, desk);
    pass
}

// Tries to enter while another pass has the turn.
fn miss(rt: &impl Abort, turn: &Turn<Desk>, mut pass: Pass, client: u32) -> Pass
    requires { IsIdlePass turn.now.table (client ∷ []) pass }
    ensures { IsIdlePass turn.now.table (client ∷ []) result }
{
    let None = turn.try_enter(&mut pass) else {
        panic!(rt; "the turn is taken")
    };
    pass
}

// Enters, and leaves the value as it was once another pass has missed it.
fn visit_beside(
    rt: &impl Abort,
    turn: &Turn<Desk>,
    mut pass: Pass,
    client: u32,
    other: Pass,
    others: u32,
) -> (Pass, Pass)
    requires one { IsIdlePass turn.now.table (client ∷ []) pass }
    requires two { IsIdlePass turn.now.table (others ∷ []) other }
    ensures one { IsIdlePass turn.now.table (client ∷ []) result.0 }
    ensures two { IsIdlePass turn.now.table (others ∷ []) result.1 }
{
    let Some(desk) = turn.try_enter(&mut pass) else {
        panic!(rt; "the turn is free")
    };
    let missed = miss(rt, turn, other, others);
    turn.leave(&mut pass, desk);
    (pass, missed)
}

#[test]
fn a_pass_that_met_a_holder_gets_the_turn_once_it_is_free(rt: HostRuntime) {
    let (turn, one, two) = opened_for_two(&rt);
    let (one, two) = visit_beside(&rt, &turn, one, 1, two, 2);
    let two = work_once(&rt, &turn, two, 2);
    let desk = closed_by_two(turn, one, two);
    check(&rt, (desk.shown(), desk.lent) == (1, 1), "counts");
}

// Its first try is at the number that it saw last, and its second one at the number that it finds.
#[test]
fn a_pass_that_missed_a_whole_turn_enters_at_its_second_try(rt: HostRuntime) {
    let (turn, one, two) = opened_for_two(&rt);
    let one = work_once(&rt, &turn, one, 1);
    let two = work_once(&rt, &turn, two, 2);
    let one = work_once(&rt, &turn, one, 1);
    let desk = closed_by_two(turn, one, two);
    check(&rt, (desk.shown(), desk.lent) == (3, 3), "counts");
    check(
        &rt,
        (desk.begun_by(1), desk.begun_by(2)) == (2, 1),
        "counts",
    );
}

#[test]
fn two_threads_visit_a_value_of_any_type(rt: HostRuntime) {
    let (turn, one, two) = opened_for_two(&rt);
    let (one, two) = visit_both(&rt, &turn, one, 1, two, 2);
    let desk = closed_by_two(turn, one, two);
    check(&rt, desk.shown() == 0, "no request");
}

// A turn over an empty history, with a pass of each of four clients.
fn opened_for_four(rt: &(impl Abort + AllocGlobal)) -> (Turn<Desk>, (Pass, Pass, Pass, Pass))
    ensures clients { result.0.clients ≡ 4 }
    ensures one { IsIdlePass result.0.table (1 ∷ []) result.1.0 }
    ensures two { IsIdlePass result.0.table (2 ∷ []) result.1.1 }
    ensures three { IsIdlePass result.0.table (3 ∷ []) result.1.2 }
    ensures four { IsIdlePass result.0.table (4 ∷ []) result.1.3 }
{
    let (turn, mut one) = opened(rt, 4);
    let two = turn.split(&mut one, 2);
    let three = turn.split(&mut one, 3);
    let four = turn.split(&mut one, 4);
    (turn, (one, two, three, four))
}

// What the four leave.
fn closed_by_four(turn: Turn<Desk>, passes: ((Pass, Pass), (Pass, Pass))) -> Desk
    requires clients { turn.clients ≡ 4 }
    requires one { IsIdlePass turn.table (1 ∷ []) passes.0.0 }
    requires two { IsIdlePass turn.table (2 ∷ []) passes.0.1 }
    requires three { IsIdlePass turn.table (3 ∷ []) passes.1.0 }
    requires four { IsIdlePass turn.table (4 ∷ []) passes.1.1 }
{
    let ((mut all, two), (three, four)) = passes;
    turn.join(&mut all, two);
    turn.join(&mut all, three);
    turn.join(&mut all, four);
    turn.close(all)
}

#[test]
fn four_threads_enter_a_hundred_times_each(rt: HostRuntime) {
    let (turn, passes) = opened_for_four(&rt);
    let passes = work_all(&rt, &turn, passes);
    let desk = closed_by_four(turn, passes);
    check(&rt, (desk.shown(), desk.lent) == (400, 400), "counts");
    let begun = [1, 2, 3, 4].map(|client| desk.begun_by(client));
    check(&rt, begun == [100; 4], "requests");
}
