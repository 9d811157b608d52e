//! A load over a group that stands on the disks.
ghost use Rattle.std.specs.Prelude.{◌≡◌, ◌≤◌, ◌<◌, ◌^◌, None, IfOk, IfSome, IfNone, IsSomeAnd, IsTrue, false, vec_capacity};
ghost use Rattle.lvm_num.specs.Descriptor.{IsValid};
ghost use Rattle.lvm_num.specs.Geometry.{partition_blocks, volume_blocks};
ghost use Rattle.lvm_num.specs.Name.{is_name};
ghost use Rattle.lvm_disk.specs.Device.{IsReady};
ghost use Rattle.lvm_core.specs.Looking.{HasNoVolumeNamed};
ghost use Rattle.lvm_core.specs.Starting.{IsRoom};
ghost use Rattle.lvm_session.specs.declared.open.Power.TheVariants as power;
ghost use Rattle.lvm_session.specs.Judging.{is_moving};
ghost use Rattle.lvm_session.specs.State.{state_of};
ghost use Rattle.lvm_load.specs.Loading.{NoneHasBegun};
ghost use Rattle.lvm_top.specs.passed.GroupLines.{IsBetweenStage, IsFittingStage, IsOfKind, IsStuck, history_in, moment_in, most_refusals, session_in, without_facts};
ghost use Rattle.lvm_top.specs.Run.{ran};
ghost use Rattle.lvm_top.specs.Script.{passage};
ghost use Rattle.lvm_program.specs.Loaded.{EndsLoaded, HasLoadedOver, HoldsVolume, IsLoadable, IsLoadedOver, IsVolumeNamed, LacksVolume, PromisesLoaded, TellsBoth, TellsLoaded, refusal_by, refusal_of, varyon_line, with_refusal};
ghost use Rattle.lvm_program.specs.Woven.{asked_woven, exit_of, untold};

use crate::workload::{is_ok, refusals_told, refuse, tell_woven};
use lvm_core::{Closed, Room};
use lvm_disk::Shelf;
use lvm_history::History;
use lvm_io::{Clock, Sink};
use lvm_load::{Load, Served, Synced, Woven, serve_load};
use lvm_num::{Descriptor, MIB_BLOCKS, Name};
use lvm_posts::Post;
use lvm_ranges::SyncFault;
use lvm_top::below::driver::Driver;
use lvm_top::below::line::do_line;
use lvm_top::below::stage::{Holder, Refusal, Reply, Stage, take_rooms};
use lvm_top::{Ended, ExitStatus, close_ended, status_of, unbegun, write_reply};
use std::alloc::{AllocError, Global};
use std::sync::Wait;
use std::thread::Threads;

// The bytes of the longest line: the command and a name.
const LINE: usize = 24;

/// What a load is asked for: the group and its volume by their names, and the requests.
#[derive(Clone, Copy)]
pub struct LoadWords {
    pub group: Name,
    pub volume: Name,
    pub load: Load,
}

// A volume: its number, and how many blocks it has.
#[derive(Clone, Copy)]
struct Volume {
    number: u16,
    blocks: u64,
}

// The line that varies the group on.
fn varyon_line(alloc: Global, group: &Name) -> Result<Vec<u8>, AllocError>
    ensures line { IfOk result (λ line. line.items ≡ varyon_line group.now) }
    ensures name { IsTrue (is_name group.now) }
{
    let name = group.as_bytes();
    let mut line = Vec::with_capacity(alloc, LINE)?;
    line.extend_from_slice(b"varyonvg ")?;
    line.extend_from_slice(name)?;
    Ok(line)
}

fn partition_blocks(mib: u16) -> u64
    ensures blocks { result ≡ partition_blocks mib }
    ensures most { result < 2 ^ 27 }
{
    MIB_BLOCKS * u64::from(mib)
}

// The blocks of so many partitions of so many MiB.
fn volume_blocks(mib: u16, lps: u32) -> u64
    ensures { result ≡ volume_blocks mib lps }
{
    partition_blocks(mib) * u64::from(lps)
}

// The volume of a name.
fn volume_of(group: &Descriptor, name: Name) -> Option<Volume>
    requires valid { IsValid group.now }
    ensures some { IfSome result (λ v. IsVolumeNamed group.now name v.number v.blocks) }
    ensures size { IfSome result (λ v. 256 ≤ v.blocks) }
    ensures none { IfNone result (HasNoVolumeNamed group.now.lvs name) }
{
    for row in group.lvs.as_slice() {
        if row.name == name {
            return Some(Volume {
                number: row.number,
                blocks: volume_blocks(group.mib, row.lps),
            });
        }
    }
    None
}

// The volume of a name of the group that is on.
fn volume_in<S: Shelf>(stage: &Stage<S>, name: Name) -> Option<Volume>
    requires kind { IsOfKind stage.now.holder }
    ensures some { IfSome result (λ v. HoldsVolume stage.now.holder name v.number v.blocks) }
    ensures size { IfSome result (λ v. 256 ≤ v.blocks) }
    ensures none { IfNone result (LacksVolume (session_in stage.now) name) }
{
    match &stage.holder {
        Holder::Serving { driver } => volume_of(driver.descriptor(), name),
        Holder::Empty { driver: _ } => None,
        Holder::Off {
            shelf: _,
            history: _,
        } => None,
    }
}

// What a load leaves, and how it ended; none where no memory was found for its workers. And how copies were brought up behind
// them, if they were.
#[derive(Drop)]
struct Loaded<S: Shelf> {
    closed: Closed<S>,
    woven: Option<Woven>,
    synced: Option<Synced>,
}

// Makes a load over a session that serves requests, and closes the session.
fn serve<S: Shelf + Send, R: Threads + Wait + Sync>(
    rt: &R,
    alloc: Global,
    driver: Driver<S>,
    posts: Vec<Post>,
    bytes: Vec<u8>,
    volume: Volume,
    load: &Load,
) -> Loaded<S>
    requires on { driver.1.power ≡ power.On }
    requires unmoved { is_moving driver.1 ≡ false }
    requires fresh { NoneHasBegun driver.1.history.facts }
    requires some { IsLoadable load.now × (256 ≤ volume.blocks) }
    requires room { 131072 ≤ vec_capacity bytes }
    ensures made { IsLoadedOver volume.number volume.blocks load.now (state_of S.device driver) (record { device = S.device result.closed.shelf; facts = result.closed.history.facts }) result.woven result.synced }
    ensures rooms { without_facts result.closed.history ≡ without_facts driver.1.history }
{
    let Served {
        driver,
        bytes,
        woven,
        synced,
    } = serve_load(rt, alloc, driver, bytes, volume.number, volume.blocks, load);
    driver.is_sound();
    Loaded {
        closed: close_ended(driver, posts, bytes),
        woven,
        synced,
    }
}

// The refusal by which copies weren't all brought up, if there is one. Where nothing was heard of a transfer, that is told of
// the whole load.
fn refusal_by(synced: &Synced) -> Option<Refusal>
    ensures { result ≡ refusal_by synced.now }
{
    let Err(why) = synced.result else {
        return None;
    };
    match why {
        SyncFault::Dark => Some(Refusal::Dark),
        SyncFault::Off => Some(Refusal::WentOff {
            have: synced.have,
            total: synced.total,
        }),
        SyncFault::Stuck => None,
        SyncFault::Busy => Some(Refusal::Busy),
        SyncFault::NoVolume | SyncFault::OutOfRange => Some(Refusal::NoVolume),
        SyncFault::HistoryFull => Some(Refusal::HistoryFull),
        SyncFault::SyncFailed { disk } => Some(Refusal::SyncFailed { disk }),
        SyncFault::NoFresh { lp } => Some(Refusal::NoFresh { lp }),
        SyncFault::Missing { disk } => Some(Refusal::Missing { disk }),
    }
}

fn refusal_of(synced: Option<Synced>) -> Option<Refusal>
    ensures { result ≡ refusal_of synced }
{
    match synced {
        None => None,
        Some(synced) => refusal_by(&synced),
    }
}

// The status of a run that has told a refusal before.
fn with_refusal(status: ExitStatus) -> ExitStatus
    ensures { result ≡ with_refusal status }
{
    match status {
        ExitStatus::Well => ExitStatus::Refusals,
        other => other,
    }
}

// Tells a refusal, as a script does, and the totals behind it. Answers the status, and how many refusals were told.
fn tell_both<O: Sink>(
    alloc: Global,
    out: &mut O,
    why: Refusal,
    woven: &Woven,
    requests: u32,
) -> (ExitStatus, u32)
    ensures { TellsBoth why woven.now requests result.0 result.1 (passage O.held O.faults out.old out.new) }
{
    let (refused, stop) = write_reply(alloc, out, Reply::Refused(why), 0);
    if stop.is_some() {
        return (status_of(stop, refused), refused);
    }
    let status = tell_woven(alloc, out, woven, requests);
    (with_refusal(status), refused + refusals_told(woven))
}

// Tells why copies weren't all brought up, where that is so, and the totals of a load; or nothing where no memory was found for
// its workers. Answers the status, and how many refusals were told.
fn tell_load<O: Sink>(
    alloc: Global,
    out: &mut O,
    woven: Option<Woven>,
    synced: Option<Synced>,
    requests: u32,
) -> (ExitStatus, u32)
    ensures { TellsLoaded woven (refusal_of synced) requests result.0 result.1 (passage O.held O.faults out.old out.new) }
{
    let Some(woven) = woven else {
        return (ExitStatus::Memory, 0);
    };
    match refusal_of(synced) {
        None => (
            tell_woven(alloc, out, &woven, requests),
            refusals_told(&woven),
        ),
        Some(why) => tell_both(alloc, out, why, &woven, requests),
    }
}

// Makes a load over a session that serves requests, and tells its totals.
fn load<S: Shelf + Send, O: Sink, R: Threads + Wait + Sync>(
    rt: &R,
    alloc: Global,
    out: &mut O,
    driver: Driver<S>,
    posts: Vec<Post>,
    bytes: Vec<u8>,
    volume: Volume,
    load: &Load,
) -> Ended<S>
    requires on { driver.1.power ≡ power.On }
    requires unmoved { is_moving driver.1 ≡ false }
    requires fresh { NoneHasBegun driver.1.history.facts }
    requires some { IsLoadable load.now × (256 ≤ volume.blocks) }
    requires room { 131072 ≤ vec_capacity bytes }
    ensures loaded { HasLoadedOver volume.number volume.blocks load.now (state_of S.device driver) (exit_of S.device result (passage O.held O.faults out.old out.new)) }
    ensures rooms { IsSomeAnd result.history (λ log. without_facts log ≡ without_facts driver.1.history) }
    ensures sim { result.sim ≡ None }
{
    let Loaded {
        closed,
        woven,
        synced,
    } = serve(rt, alloc, driver, posts, bytes, volume, load);
    let Closed { shelf, history } = closed;
    let (status, refused) = tell_load(alloc, out, woven, synced, load.requests);
    Ended {
        status,
        refused,
        history: Some(history),
        shelf,
        sim: None,
    }
}

// Ends a run behind the line that was to vary the group on.
fn end_load<S: Shelf + Send, O: Sink, R: Threads + Wait + Sync>(
    rt: &R,
    alloc: Global,
    out: &mut O,
    stage: Stage<S>,
    reply: Reply,
    words: &LoadWords,
) -> Ended<S>
    requires off { IsStuck reply → session_in stage ≡ None }
    requires between { (IsStuck reply → ⊥) → IsBetweenStage S.device stage }
    requires fits { IsFittingStage stage }
    requires few { most_refusals reply ≤ 2 }
    requires fresh { reply ≡ Reply.Ok → IfSome (session_in stage) (λ core. NoneHasBegun core.history.facts) }
    requires some { IsLoadable words.now.load }
    ensures ends { EndsLoaded words.now reply (history_in stage).run (moment_in S.device stage) (session_in stage) (exit_of S.device result (passage O.held O.faults out.old out.new)) }
    ensures rooms { IsSomeAnd result.history (λ log. without_facts log ≡ without_facts (history_in stage)) }
    ensures sim { result.sim ≡ None }
{
    if !is_ok(&reply) {
        return refuse(alloc, out, stage, reply);
    }
    let Some(volume) = volume_in(&stage, words.volume) else {
        return refuse(alloc, out, stage, Reply::Refused(Refusal::NoVolume));
    };
    let Stage {
        holder,
        posts,
        bytes,
    } = stage;
    match holder {
        Holder::Serving { driver } => load(
            rt,
            alloc,
            out,
            driver,
            posts,
            bytes,
            volume,
            &words.load,
        ),
        Holder::Empty { driver: _ } => unreachable!(),
        Holder::Off {
            shelf: _,
            history: _,
        } => unreachable!(),
    }
}

/// Runs a load: varies the group on, lets each client of the load ask for its requests of the volume in a thread of its own,
/// makes turns behind them until nothing may be made, and writes the totals. Where that is asked for, one thread more brings up
/// the volume's stale copies beside them, and what is stale behind them is brought up once more. A refusal of that, and of the
/// line that varies the group on, is written as in a script, and so is `NoVolume` where the group has no volume of that name.
/// Nothing is written, and the status is Memory, where no memory is found for the workers. The moment at which the run begins
/// names it in its history; the clock is asked for it, and once more for the group. The call may wait for its workers: what it
/// promises holds if it returns.
pub fn run_load<S: Shelf + Send, O: Sink, C: Clock, R: Threads + Wait + Sync>(
    rt: &R,
    alloc: Global,
    words: &LoadWords,
    out: &mut O,
    shelf: S,
    clock: &mut C,
    room: Room,
) -> Ended<S>
    requires ready { IsReady (S.device shelf) }
    requires room { IsRoom room }
    requires some { IsLoadable words.now.load }
    ensures run { PromisesLoaded words.now (C.last clock.old) (ran room (S.device shelf) (S.device result.shelf) untold (passage O.held O.faults out.old out.new) (C.last clock.new) result.history result.status result.refused) }
    ensures sim { result.sim ≡ None }
    ensures asked { C.asked clock.new ≡ asked_woven result.history (C.asked clock.old) }
{
    let run = clock.now();
    let Ok(line) = varyon_line(alloc, &words.group) else {
        return unbegun(shelf);
    };
    let Ok(history) = History::new(alloc, run, room.entries, room.bytes) else {
        return unbegun(shelf);
    };
    let Ok((posts, bytes)) = take_rooms(alloc, room.entries) else {
        return unbegun(shelf);
    };
    let stage = Stage {
        holder: Holder::Off { shelf, history },
        posts,
        bytes,
    };
    let answered = do_line(alloc, stage, clock, room, line.as_slice());
    end_load(rt, alloc, out, answered.stage, answered.reply, words)
}
