//! A run of a script.
ghost use Rattle.std.specs.Prelude.{◌≡◌, ◌⊎◌, ◌↔◌, None, IsTrue};
ghost use Rattle.lvm_disk.specs.Device.{IsReady};
ghost use Rattle.lvm_io.specs.Count.{Rose};
ghost use Rattle.lvm_core.specs.Starting.{IsRoom};
ghost use Rattle.lvm_session.specs.declared.open.Power.TheVariants as power;
ghost use Rattle.lvm_session.specs.Fields.{core_of};
ghost use Rattle.lvm_session.specs.Sound.{IsSound};
ghost use Rattle.lvm_session.specs.State.{state_of};
ghost use Rattle.lvm_line.specs.passed.Tie.{RunsOn};
ghost use Rattle.lvm_line.specs.passed.GroupLines.{history_in, moment_in, session_in, IsBetweenStage, IsClosed, IsFittingStage, without_facts};
ghost use Rattle.lvm_top.specs.Clock.{clocked};
ghost use Rattle.lvm_top.specs.Ending.{Concludes, HasNothingLeft, MakesTurns, HasNothingLeftOrOut, RunsOut};
ghost use Rattle.lvm_top.specs.Plain.{UpholdsPlainly};
ghost use Rattle.lvm_top.specs.Run.{Promises, ran};
ghost use Rattle.lvm_top.specs.Script.{facts_of, passage, run_of};
ghost use Rattle.lvm_top.specs.Statuses.{status_of};

use crate::script::{Stop, do_lines};
use crate::status::ExitStatus;
use lvm_commit::is_committed;
use lvm_core::{Closed, Room};
use lvm_disk::Shelf;
use lvm_history::History;
use lvm_io::{Clock, Lines, Sink, Source};
use lvm_line::below::driver::Driver;
use lvm_line::below::stage::{Holder, Stage, take_rooms};
use lvm_memory::MemShelf;
use lvm_posts::Post;
use lvm_session::{Session, Turned};
use std::alloc::Global;

/// How a run ended.
#[derive(Drop)]
pub struct Ended<S> {
    /// Why it ended.
    pub status: ExitStatus,
    /// How many lines were refused.
    pub refused: u32,
    /// What was asked and answered; None where no memory was found for a run.
    pub history: Option<History>,
    /// The disks as the run leaves them.
    pub shelf: S,
    /// Disks in memory that the run made for itself, as it leaves them; None where it made none.
    pub sim: Option<MemShelf>,
}

/// The status of a run of which so many lines were refused, and that stopped so.
pub fn status_of(stop: Option<Stop>, refused: u32) -> ExitStatus
    ensures { result ≡ status_of stop refused }
{
    match stop {
        None if refused == 0 => ExitStatus::Well,
        None => ExitStatus::Refusals,
        Some(Stop::SourceFault) => ExitStatus::SourceFault,
        Some(Stop::SinkFault) => ExitStatus::SinkFault,
        Some(Stop::Memory) => ExitStatus::Memory,
        Some(Stop::Stuck) => ExitStatus::Stuck,
        Some(Stop::TooLong) => ExitStatus::TooLong,
    }
}

/// The end of a run for which no memory was found.
pub fn unbegun<S>(shelf: S) -> Ended<S>
    ensures { result ≡ record { status = ExitStatus.Memory; refused = 0; history = None; shelf = shelf; sim = None } }
{
    Ended {
        status: ExitStatus::Memory,
        refused: 0,
        history: None,
        shelf,
        sim: None,
    }
}

// Whether a session has no request open, no update in flight, and nothing wanted that isn't committed.
fn is_quiet(session: &Session) -> bool
    ensures { IsTrue result ↔ HasNothingLeft (core_of session.now) }
{
    if !session.requests.is_empty() {
        return false;
    }
    if session.updater.in_flight().is_some() {
        return false;
    }
    is_committed(&session.updater)
}

// A session, and whether nothing is under way in it, with no transfer out.
fn at_rest<S: Shelf>(driver: Driver<S>) -> (Driver<S>, bool)
    requires none { driver.1.copy ≡ None }
    ensures driver { result.0 ≡ driver }
    ensures rests { IsTrue result.1 ↔ HasNothingLeftOrOut (state_of S.device driver) }
{
    let (shelf, session) = driver.into_parts();
    let rests = if is_quiet(&session) {
        shelf.flights() == 0
    } else {
        false
    };
    (Driver::from_parts(shelf, session), rests)
}

/// Makes turns until one doesn't move.
pub fn run_on<S: Shelf>(driver: &mut Driver<S>)
    requires unstuck { driver.old.1.power ≡ power.Stuck → ⊥ }
    ensures turns { MakesTurns (state_of S.device driver.old) (state_of S.device driver.new) }
    ensures runs { RunsOn (state_of S.device driver.old) (state_of S.device driver.new) }
    ensures sound { IsSound (state_of S.device driver.new) }
{
    loop {
        match driver.turn() {
            Turned::Moved => {}
            _ => {
                driver.is_sound();
                return;
            }
        }
    }
}

/// Closes a session that is over or has nothing left to do. After a power cut the power is put on again.
pub fn close_ended<S: Shelf>(driver: Driver<S>, posts: Vec<Post>, bytes: Vec<u8>) -> Closed<S>
    ensures shelf { IsClosed driver.1.power (S.device driver.0) (S.device result.shelf) }
    ensures history { result.history ≡ driver.1.history }
{
    Stage::ended(driver, posts, bytes).holder.close()
}

// Makes what turns are left of a session, and closes it. Answers the shelf and the history.
fn run_out<S: Shelf>(driver: Driver<S>, posts: Vec<Post>, bytes: Vec<u8>) -> Closed<S>
    requires on { driver.1.power ≡ power.On }
    requires none { driver.1.copy ≡ None }
    ensures ends { RunsOut (state_of S.device driver) (record { device = S.device result.shelf; facts = result.history.facts }) }
    ensures rooms { without_facts result.history ≡ without_facts driver.1.history }
{
    let (mut driver, rests) = at_rest(driver);
    if rests {
        return close_ended(driver, posts, bytes);
    }
    run_on(&mut driver);
    close_ended(driver, posts, bytes)
}

/// Ends what stands after the last line: a session that is on makes turns until one doesn't move, and is closed.
pub fn conclude<S: Shelf>(stage: Stage<S>) -> Closed<S>
    requires between { (session_in stage ≡ None) ⊎ IsBetweenStage S.device stage }
    requires fits { IsFittingStage stage }
    ensures concludes { Concludes (history_in stage).run (moment_in S.device stage) (record { device = S.device result.shelf; facts = result.history.facts }) (session_in stage) }
    ensures rooms { without_facts result.history ≡ without_facts (history_in stage) }
{
    let Stage {
        holder,
        posts,
        bytes,
    } = stage;
    match holder {
        Holder::Off { shelf, history } => Closed { shelf, history },
        Holder::Empty { driver } => driver.close(),
        Holder::Serving { driver } => run_out(driver, posts, bytes),
    }
}

/// Runs a script: reads a line, does it, writes its reply, and goes on. The moment at which the run begins
/// names it in its history. At the end a session that is on makes turns until one doesn't move, and is closed
/// without a write.
pub fn run_script<S: Shelf, I: Source, O: Sink, C: Clock>(
    alloc: Global,
    input: &mut I,
    out: &mut O,
    shelf: S,
    clock: &mut C,
    room: Room,
) -> Ended<S>
    requires ready { IsReady (S.device shelf) }
    requires room { IsRoom room }
    ensures clock { Rose (C.last clock.old) (C.last clock.new) }
    ensures run { let read = passage I.left I.faults input.old input.new in let written = passage O.held O.faults out.old out.new in
        Promises (clocked C.last C.asked clock.old clock.new) (ran room (S.device shelf) (S.device result.shelf) read written (C.last clock.new) result.history result.status result.refused) }
    // by what goes in alone: the bytes of the script, and the disks at entry
    ensures plain { UpholdsPlainly (I.left input.old) (run_of result.history) (S.device shelf) (S.device result.shelf) (facts_of result.history) }
    ensures sim { result.sim ≡ None }
{
    let run = clock.now();
    let Ok(mut lines) = Lines::new(alloc) else {
        return unbegun(shelf);
    };
    let Ok(history) = History::new(alloc, run, room.entries, room.bytes) else {
        return unbegun(shelf);
    };
    let Ok((posts, bytes)) = take_rooms(alloc, room.entries) else {
        return unbegun(shelf);
    };
    let stage = Stage {
        holder: Holder::Off { shelf, history },
        posts,
        bytes,
    };
    let done = do_lines(alloc, &mut lines, input, out, stage, clock, room);
    let Closed { shelf, history } = conclude(done.stage);
    // It says that it tells of this run alone.
    history.run();
    Ended {
        status: status_of(done.stop, done.refused),
        refused: done.refused,
        history: Some(history),
        shelf,
        sim: None,
    }
}
