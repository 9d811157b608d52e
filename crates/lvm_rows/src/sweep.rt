//! One script with an act at another call each time.

ghost use Rattle.std.specs.Prelude.{IfOk};
ghost use Rattle.lvm_disk.specs.Device.{IsReady};
ghost use Rattle.lvm_memory.specs.Memory.{device_of};

use crate::fault::Fault;
use crate::images::copied;
use crate::outside::{Outside, Streams};
use crate::print::{print_joined, print_judged};
use crate::run::{Sizes, Watched, blank, judge, restarted, run};
use crate::script::Script;
use crate::shown::{Window, print_shown};
use lvm_io::MemClock;
use lvm_memory::{Act, MemShelf, Planned};
use lvm_num::Rows;
use lvm_program::Ended;
use std::alloc::Global;
use std::collections::BTreeSet;

/// A script over disks of zeros or such on which this stands, what it meets beside, a sector whose content is judged, and bytes that are shown.
#[derive(Clone, Copy, Drop)]
pub struct Swept<'a> {
    pub sizes: &'a Sizes,
    pub left: Option<&'a [Rows<u8>]>,
    pub script: &'a Script,
    pub outside: &'a Outside,
    pub watched: Watched,
    pub windows: &'a [Window],
}

/// What is done before each call in turn, and whether it is done again so many calls later.
#[derive(Clone, Copy, Drop)]
pub struct Swing<'a> {
    pub acts: &'a [Act],
    pub again: Option<u64>,
}

// What is kept of a run: where it read and wrote, how many calls of the disks it made, and what is told of its history
// and of the disks.
#[derive(Drop)]
struct Tried {
    streams: Streams,
    calls: u64,
    told: Vec<u8>,
}

// The disks of a run.
fn disks_of(alloc: Global, swept: &Swept, plan: &[Planned]) -> Result<MemShelf, Fault>
    ensures { IfOk result (λ shelf. IsReady (device_of shelf)) }
{
    match swept.left {
        None => blank(alloc, &swept.sizes.sectors, plan),
        Some(images) => restarted(alloc, copied(alloc, images)?, plan),
    }
}

// Runs some of the lines, with a plan.
fn try_lines(alloc: Global, swept: &Swept, lines: &[u8], plan: &[Planned]) -> Result<Tried, Fault> {
    let mut streams = swept.outside.streams(alloc, lines)?;
    match try_run(alloc, swept, &mut streams, plan) {
        Ok((calls, told)) => Ok(Tried {
            streams,
            calls,
            told,
        }),
        Err(fault) => {
            drop(streams);
            Err(fault)
        }
    }
}

// Runs what the source gives: how many calls it made, and what is told of it.
fn try_run(
    alloc: Global,
    swept: &Swept,
    streams: &mut Streams,
    plan: &[Planned],
) -> Result<(u64, Vec<u8>), Fault> {
    let shelf = disks_of(alloc, swept, plan)?;
    let mut clock = MemClock::new(7);
    let ended = run(alloc, streams, shelf, &mut clock, swept.sizes.room);
    let calls = ended.shelf.calls();
    let told = told_of(alloc, swept, &ended);
    drop(ended);
    Ok((calls, told?))
}

// What is judged of a run, and what it shows of the disks.
fn told_of(alloc: Global, swept: &Swept, ended: &Ended<MemShelf>) -> Result<Vec<u8>, Fault> {
    let mut told = Vec::new(alloc);
    print_judged(judge(ended, swept.watched), &mut told)?;
    print_shown(alloc, &ended.shelf, swept.windows, &mut told)?;
    Ok(told)
}

// The plan of a sweep with an act at a call.
fn plan_at(
    alloc: Global,
    swept: &Swept,
    call: u64,
    act: Act,
    again: Option<u64>,
) -> Result<Vec<Planned>, Fault> {
    let mut plan = Vec::from_slice(alloc, swept.outside.plan())?;
    plan.push(Planned { call, act })?;
    if let Some(later) = again {
        let call = call.saturating_add(later);
        plan.push(Planned { call, act })?;
    }
    Ok(plan)
}

// The answers behind those before, without their last line feed.
fn answers_behind<'a>(before: &[u8], text: &'a [u8]) -> &'a [u8] {
    let answers = text.strip_prefix(before).unwrap_or(text);
    answers.strip_suffix(b"\n").unwrap_or(answers)
}

// How a run ended, its answers behind those before.
fn ending(alloc: Global, before: &[u8], tried: &Tried) -> Result<Vec<u8>, Fault> {
    let mut line = Vec::new(alloc);
    print_joined(answers_behind(before, tried.streams.out.bytes()), &mut line)?;
    line.extend_from_slice(&tried.told)?;
    Ok(line)
}

// A call of the marked lines: its number, and whether it starts a transfer. The next one ends it.
#[derive(Clone, Copy)]
struct Call {
    number: u64,
    starts: bool,
}

// Whether the act at this call may leave what no other one does: before a start nothing is under way for a cut to leave
// in part, and a disk that fails before the end of a transfer fails the same ones as before its start.
fn may_differ(act: Act, call: Call) -> bool {
    match act {
        Act::Cut(word) => word == 0 || !call.starts,
        Act::Fail(_) => call.starts,
        _ => true,
    }
}

// The ending with an act at a call.
fn try_act(
    alloc: Global,
    swept: &Swept,
    again: Option<u64>,
    call: u64,
    act: Act,
    before: &[u8],
) -> Result<Vec<u8>, Fault> {
    let plan = plan_at(alloc, swept, call, act, again)?;
    let tried = try_lines(alloc, swept, swept.script.text(), &plan)?;
    let ending = ending(alloc, before, &tried);
    drop(tried);
    ending
}

// The endings with each act at a call.
fn sweep_call(
    alloc: Global,
    swept: &Swept,
    swing: &Swing,
    call: Call,
    before: &[u8],
    endings: &mut BTreeSet<Vec<u8>>,
) -> Result<(), Fault> {
    for act in swing.acts {
        if may_differ(*act, call) {
            let ending = try_act(alloc, swept, swing.again, call.number, *act, before)?;
            endings.insert(ending)?;
        }
    }
    Ok(())
}

// How many calls of the disks the lines up to the last marked one make.
fn calls_through(alloc: Global, swept: &Swept) -> Result<u64, Fault> {
    let tried = try_lines(alloc, swept, swept.script.through(), swept.outside.plan())?;
    let calls = tried.calls;
    drop(tried);
    Ok(calls)
}

// The endings with each act at each call from the first to the last one.
fn sweep_calls(
    alloc: Global,
    swept: &Swept,
    swing: &Swing,
    (first, last): (u64, u64),
    before: &[u8],
    endings: &mut BTreeSet<Vec<u8>>,
) -> Result<(), Fault> {
    for number in first..=last {
        let call = Call {
            number,
            starts: number.abs_diff(first) % 2 == 0,
        };
        sweep_call(alloc, swept, swing, call, before, endings)?;
    }
    Ok(())
}

/// Adds the different answers from the marked lines on, where an act is done before one of their calls.
pub(crate) fn sweep(
    alloc: Global,
    swept: &Swept,
    swing: &Swing,
    endings: &mut BTreeSet<Vec<u8>>,
) -> Result<(), Fault> {
    let last = calls_through(alloc, swept)?;
    let before = try_lines(alloc, swept, swept.script.before(), swept.outside.plan())?;
    let first = before.calls.saturating_add(1);
    let done = sweep_calls(
        alloc,
        swept,
        swing,
        (first, last),
        before.streams.out.bytes(),
        endings,
    );
    drop(before);
    done
}
