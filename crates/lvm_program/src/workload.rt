//! A workload over a group of its own.
ghost use Rattle.std.specs.Prelude.{◌≡◌, ◌↔◌, ◌≤◌, ◌-◌, ◌*◌, None, IfOk, OnOk, IsSomeAnd, IsTrue, false, vec_capacity};
ghost use Rattle.std.specs.String.{string_bytes};
ghost use Rattle.lvm_disk.specs.Device.{IsReady};
ghost use Rattle.lvm_core.specs.Starting.{IsRoom};
ghost use Rattle.lvm_session.specs.declared.open.Power.TheVariants as power;
ghost use Rattle.lvm_session.specs.Judging.{is_moving};
ghost use Rattle.lvm_session.specs.Sound.{IsSound};
ghost use Rattle.lvm_session.specs.State.{state_of};
ghost use Rattle.lvm_top.specs.passed.Tie.{RunsOn};
ghost use Rattle.lvm_top.specs.passed.GroupLines.{IsBetweenStage, IsFittingStage, IsStuck, history_in, moment_in, most_refusals, session_in, state_in, without_facts};
ghost use Rattle.lvm_top.specs.Run.{ran};
ghost use Rattle.lvm_top.specs.Script.{passage};
ghost use Rattle.lvm_program.specs.Woven.{EndsWoven, HasAsked, IsDrawable, IsDrawn, IsMade, SessionIsServing, IsSized, EndsRefused, HasServed, PromisesWoven, TellsWoven, TurnsBehind, asked_woven, copy_count, exit_of, is_whole, mkvg_line, mklv_line, refusal_text, refusals_told, status_woven, totals_text, untold, with_ill, with_well};

use lvm_core::{Closed, Room};
use lvm_disk::Shelf;
use lvm_history::History;
use lvm_io::{Clock, Sink, write_all};
use lvm_load::{Totals, Workload, Woven, totals_since, weave};
use lvm_num::MIB_BLOCKS;
use lvm_posts::Post;
use lvm_top::below::driver::Driver;
use lvm_top::below::line::do_line;
use lvm_top::below::push_counted;
use lvm_top::below::stage::{Holder, Reply, Stage, take_rooms};
use lvm_top::{Ended, ExitStatus, close_ended, conclude, run_on, status_of, unbegun, write_reply};
use std::alloc::{AllocError, Global};

// The line that makes a group of eight disks; so many bytes of it stand before them, and as many are each.
const MKVG: &[u8] = b"mkvg -y weavevg -s 1 hdisk0 hdisk1 hdisk2 hdisk3 hdisk4 hdisk5 hdisk6 hdisk7";

const DISKS_AT: usize = 20;

const DISK: usize = 7;

// The line that makes the group, of so many disks.
fn mkvg_line(disks: u16) -> &'static [u8]
    requires { disks ≤ 8 }
    ensures { result.now ≡ mkvg_line disks }
{
    &MKVG[..DISKS_AT + DISK * disks as usize]
}

// How many copies it has: one on each of two disks, or one where there is one disk.
fn copy_count(disks: u16) -> u32
    ensures { result ≡ copy_count disks }
{
    if disks == 1 { 1 } else { 2 }
}

// The line that makes its volume, of as many logical partitions as a disk has partitions.
fn mklv_line(alloc: Global, disks: u16, mib: u32) -> Result<String, AllocError>
    requires { 2 ≤ mib }
    ensures { IfOk result (λ text. string_bytes text ≡ mklv_line disks mib) }
{
    let copies = copy_count(disks);
    let lps = mib - 2;
    let text = format!(in alloc; "mklv -y weavelv -c {copies} -w a weavevg {lps}")?;
    Ok(text)
}

// The blocks of the volume.
fn woven_blocks(mib: u32) -> u64
    requires { 3 ≤ mib }
    ensures is { result ≡ 2048 * (mib - 2) }
    ensures some { 1 ≤ result }
{
    MIB_BLOCKS * u64::from(mib - 2)
}

// What the lines that make the volume leave, and what the last of them was answered.
#[derive(Drop)]
struct Made<S: Shelf> {
    stage: Stage<S>,
    reply: Reply,
}

// Does the line that makes the group, and then the one that makes the volume.
fn make_volume<S: Shelf, C: Clock>(
    alloc: Global,
    stage: Stage<S>,
    clock: &mut C,
    room: Room,
    group: &[u8],
    volume: &[u8],
) -> Made<S>
    requires between { IsBetweenStage S.device stage }
    requires fits { IsFittingStage stage }
    requires room { IsRoom room }
    ensures made { IsMade (without_facts (history_in stage)) room group.now volume.now (state_in S.device stage (C.last clock.old)) result.reply (state_in S.device result.stage (C.last clock.new)) }
    ensures rooms { without_facts (history_in result.stage) ≡ without_facts (history_in stage) }
    ensures fits { IsFittingStage result.stage }
    ensures asked { HasAsked group.now volume.now (C.asked clock.old) (C.asked clock.new) }
{
    let made = do_line(alloc, stage, clock, room, group);
    match made.reply {
        Reply::Ok => {
            let made = do_line(alloc, made.stage, clock, room, volume);
            Made {
                stage: made.stage,
                reply: made.reply,
            }
        }
        reply => Made {
            stage: made.stage,
            reply,
        },
    }
}

// What a workload leaves, and how it ended.
#[derive(Drop)]
struct Served<S: Shelf> {
    closed: Closed<S>,
    woven: Woven,
}

// Makes turns until one doesn't move, unless nothing is heard.
fn behind<S: Shelf>(driver: &mut Driver<S>, unheard: bool)
    requires unstuck { driver.old.1.power ≡ power.Stuck → ⊥ }
    ensures turns { TurnsBehind unheard (state_of S.device driver.old) (state_of S.device driver.new) }
    ensures runs { RunsOn (state_of S.device driver.old) (state_of S.device driver.new) }
    ensures sound { IsSound (state_of S.device driver.new) }
{
    if unheard {
        let _ = driver.power();
    } else {
        run_on(driver);
    }
}

// Draws a workload over the first volume of a session, of so many blocks, makes turns behind it, counts what the history tells
// then, and closes the session.
fn serve<S: Shelf>(
    driver: Driver<S>,
    posts: Vec<Post>,
    bytes: Vec<u8>,
    blocks: u64,
    load: &Workload,
) -> Served<S>
    requires on { driver.1.power ≡ power.On }
    requires unmoved { is_moving driver.1 ≡ false }
    requires some { IsDrawable load.now × (1 ≤ blocks) }
    requires room { 131072 ≤ vec_capacity bytes }
    ensures drawn { IsDrawn blocks load.now (state_of S.device driver) (record { device = S.device result.closed.shelf; facts = result.closed.history.facts }) result.woven }
    ensures rooms { without_facts result.closed.history ≡ without_facts driver.1.history }
{
    let mut driver = driver;
    let mut bytes = bytes;
    let from = driver.history().len();
    let woven = weave(&mut driver, 1, blocks, load, &mut bytes);
    behind(&mut driver, woven.waiting);
    let totals = totals_since(driver.history(), from, load.requests);
    Served {
        closed: close_ended(driver, posts, bytes),
        woven: Woven {
            totals,
            waiting: woven.waiting,
        },
    }
}

// The refusal of a workload of which a client still waits, and no text else.
fn refusal_text(woven: &Woven) -> &'static str
    ensures { result.now ≡ refusal_text woven.now }
{
    if woven.waiting {
        "refused 24 Stuck\n"
    } else {
        ""
    }
}

// Adds how many requests have begun, and how many ended well.
fn push_well(text: &mut String, totals: &Totals) -> Result<(), AllocError>
    ensures { OnOk result (string_bytes text.new ≡ with_well (string_bytes text.old) totals.now) }
{
    push_counted(text, "begun", u64::from(totals.begun))?;
    push_counted(text, "done", u64::from(totals.done))?;
    push_counted(text, "got", u64::from(totals.got))
}

// Adds how many ended otherwise, and how many haven't begun.
fn push_ill(text: &mut String, totals: &Totals) -> Result<(), AllocError>
    ensures { OnOk result (string_bytes text.new ≡ with_ill (string_bytes text.old) totals.now) }
{
    push_counted(text, "lost", u64::from(totals.lost))?;
    push_counted(text, "refused", u64::from(totals.refused))?;
    push_counted(text, "unbegun", u64::from(totals.unbegun))
}

// The six lines.
fn totals_text(alloc: Global, totals: &Totals) -> Result<String, AllocError>
    ensures { IfOk result (λ text. string_bytes text ≡ totals_text totals.now) }
{
    let mut text = String::new(alloc);
    push_well(&mut text, totals)?;
    push_ill(&mut text, totals)?;
    Ok(text)
}

// Whether all requests ended well.
fn is_whole(woven: &Woven, requests: u32) -> bool
    ensures { result ≡ is_whole woven.now requests }
{
    let well = u64::from(woven.totals.done) + u64::from(woven.totals.got);
    well == u64::from(requests)
}

// The status of a workload whose totals were written, or not for this reason.
fn status_woven(woven: &Woven, requests: u32, failed: Option<ExitStatus>) -> ExitStatus
    ensures { result ≡ status_woven woven.now requests failed }
{
    match failed {
        _ if woven.waiting => ExitStatus::Stuck,
        Some(status) => status,
        None if is_whole(woven, requests) => ExitStatus::Well,
        None => ExitStatus::Refusals,
    }
}

// Writes the refusal where nothing was heard of a transfer, which wants no memory, and the totals, as far as the sink takes them.
pub(crate) fn tell_woven<O: Sink>(
    alloc: Global,
    out: &mut O,
    woven: &Woven,
    requests: u32,
) -> ExitStatus
    ensures { TellsWoven woven.now requests result (passage O.held O.faults out.old out.new) }
{
    let Ok(()) = write_all(out, refusal_text(woven).as_bytes()) else {
        return status_woven(woven, requests, Some(ExitStatus::SinkFault));
    };
    let Ok(text) = totals_text(alloc, &woven.totals) else {
        return status_woven(woven, requests, Some(ExitStatus::Memory));
    };
    match write_all(out, text.as_bytes()) {
        Ok(()) => status_woven(woven, requests, None),
        Err(_) => status_woven(woven, requests, Some(ExitStatus::SinkFault)),
    }
}

// How many refusals were printed.
pub(crate) fn refusals_told(woven: &Woven) -> u32
    ensures { result ≡ refusals_told woven.now }
{
    if woven.waiting { 1 } else { 0 }
}

// Whether a line was done.
pub(crate) fn is_ok(reply: &Reply) -> bool
    ensures { IsTrue result ↔ (reply.now ≡ Reply.Ok) }
{
    match reply {
        Reply::Ok => true,
        _ => false,
    }
}

// Ends a run with a refusal, which is printed.
pub(crate) fn refuse<S: Shelf, O: Sink>(
    alloc: Global,
    out: &mut O,
    stage: Stage<S>,
    why: Reply,
) -> Ended<S>
    requires off { IsStuck why → session_in stage ≡ None }
    requires between { (IsStuck why → ⊥) → IsBetweenStage S.device stage }
    requires fits { IsFittingStage stage }
    requires few { most_refusals why ≤ 2 }
    ensures refused { EndsRefused why (history_in stage).run (moment_in S.device stage) (session_in stage) (exit_of S.device result (passage O.held O.faults out.old out.new)) }
    ensures rooms { IsSomeAnd result.history (λ log. without_facts log ≡ without_facts (history_in stage)) }
    ensures sim { result.sim ≡ None }
{
    let (refused, stop) = write_reply(alloc, out, why, 0);
    let Closed { shelf, history } = conclude(stage);
    Ended {
        status: status_of(stop, refused),
        refused,
        history: Some(history),
        shelf,
        sim: None,
    }
}

// Draws the workload over a session that serves requests, and tells its totals.
fn draw<S: Shelf, O: Sink>(
    alloc: Global,
    out: &mut O,
    driver: Driver<S>,
    posts: Vec<Post>,
    bytes: Vec<u8>,
    blocks: u64,
    load: &Workload,
) -> Ended<S>
    requires on { driver.1.power ≡ power.On }
    requires unmoved { is_moving driver.1 ≡ false }
    requires some { IsDrawable load.now × (1 ≤ blocks) }
    requires room { 131072 ≤ vec_capacity bytes }
    ensures drawn { HasServed blocks load.now (state_of S.device driver) (exit_of S.device result (passage O.held O.faults out.old out.new)) }
    ensures rooms { IsSomeAnd result.history (λ log. without_facts log ≡ without_facts driver.1.history) }
    ensures sim { result.sim ≡ None }
{
    let Served { closed, woven } = serve(driver, posts, bytes, blocks, load);
    let Closed { shelf, history } = closed;
    Ended {
        status: tell_woven(alloc, out, &woven, load.requests),
        refused: refusals_told(&woven),
        history: Some(history),
        shelf,
        sim: None,
    }
}

// Ends a run behind the lines that were to make its volume.
fn end_woven<S: Shelf, O: Sink>(
    alloc: Global,
    out: &mut O,
    made: Made<S>,
    blocks: u64,
    load: &Workload,
) -> Ended<S>
    requires off { IsStuck made.reply → session_in made.stage ≡ None }
    requires between { (IsStuck made.reply → ⊥) → IsBetweenStage S.device made.stage }
    requires fits { IsFittingStage made.stage }
    requires few { most_refusals made.reply ≤ 2 }
    requires served { made.reply ≡ Reply.Ok → SessionIsServing (session_in made.stage) }
    requires some { IsDrawable load.now × (1 ≤ blocks) }
    ensures ends { EndsWoven blocks load.now made.reply (history_in made.stage).run (moment_in S.device made.stage) (session_in made.stage) (exit_of S.device result (passage O.held O.faults out.old out.new)) }
    ensures rooms { IsSomeAnd result.history (λ log. without_facts log ≡ without_facts (history_in made.stage)) }
    ensures sim { result.sim ≡ None }
{
    let Made { stage, reply } = made;
    if !is_ok(&reply) {
        return refuse(alloc, out, stage, reply);
    }
    let Stage {
        holder,
        posts,
        bytes,
    } = stage;
    match holder {
        Holder::Serving { driver } => draw(alloc, out, driver, posts, bytes, blocks, load),
        Holder::Empty { driver: _ } => unreachable!(),
        Holder::Off {
            shelf: _,
            history: _,
        } => unreachable!(),
    }
}

/// Runs a workload: makes the group `weavevg` of the first disks, with partitions of 1 MiB, and its volume `weavelv`, active
/// and of two copies, or one where there is one disk, of as many logical partitions as a disk has partitions; draws the
/// requests of its clients over it, makes turns until one doesn't move, unless nothing is heard, and writes the totals. A
/// refusal of a line that makes them is written as in a script. The moment at which the run begins names it in its history;
/// the clock is asked for it, and once more for the group.
pub fn run_weave<S: Shelf, O: Sink, C: Clock>(
    alloc: Global,
    disks: u16,
    mib: u32,
    load: &Workload,
    out: &mut O,
    shelf: S,
    clock: &mut C,
    room: Room,
) -> Ended<S>
    requires ready { IsReady (S.device shelf) }
    requires room { IsRoom room }
    requires some { IsDrawable load.now }
    requires sized { IsSized disks mib }
    ensures run { PromisesWoven disks mib load.now (C.last clock.old) (ran room (S.device shelf) (S.device result.shelf) untold (passage O.held O.faults out.old out.new) (C.last clock.new) result.history result.status result.refused) }
    ensures sim { result.sim ≡ None }
    ensures asked { C.asked clock.new ≡ asked_woven result.history (C.asked clock.old) }
{
    let run = clock.now();
    let Ok(volume) = mklv_line(alloc, disks, mib) else {
        return unbegun(shelf);
    };
    let Ok(history) = History::new(alloc, run, room.entries, room.bytes) else {
        return unbegun(shelf);
    };
    let Ok((posts, bytes)) = take_rooms(alloc, room.entries) else {
        return unbegun(shelf);
    };
    let stage = Stage {
        holder: Holder::Off { shelf, history },
        posts,
        bytes,
    };
    let made = make_volume(
        alloc,
        stage,
        clock,
        room,
        mkvg_line(disks),
        volume.as_bytes(),
    );
    end_woven(alloc, out, made, woven_blocks(mib), load)
}
