//! A script, line by line.
ghost use Rattle.std.specs.Prelude.{◌≡◌, ◌↔◌, ◌+◌, ◌++◌, ◌^◌, ◌<◌, ◌≤◌, [], Some, None, OnOk, OnErr, IfOk, IfErr, IsTrue};
ghost use Rattle.lvm_io.specs.Count.{Rose};
ghost use Rattle.lvm_io.specs.Stream.{WhereTold, WritesFront};
ghost use Rattle.lvm_core.specs.Starting.{IsRoom};
ghost use Rattle.lvm_line.specs.passed.GroupLines.{reply_text, most_refusals, refusals_of, IsStuck, history_in, session_in, state_in, IsBetweenStage, IsFittingStage, without_facts};
ghost use Rattle.lvm_top.specs.Clock.{GoesAsking};
ghost use Rattle.lvm_top.specs.Script.{Says, is_made_late, passage};
ghost use Rattle.lvm_top.specs.Turn.{ReadsLine, ReadsNone, Tells, stop_after};

use lvm_core::Room;
use lvm_disk::Shelf;
use lvm_io::{Clock, Lines, NextLine, Sink, SinkFault, Source, write_all};
use lvm_line::below::stage::{Refusal, Reply, Stage, memory_text, refusal_line};
use lvm_line::{InPlace, answer_line, finish_line};
use lvm_num::{Memory, Rows, Text};
use lvm_show::{show_migrated, show_stepped, show_synced};
use std::alloc::Global;

/// Why a run ends before the input does.
#[derive(Clone, Copy, Drop)]
pub enum Stop {
    /// The source failed.
    SourceFault,
    /// The sink failed.
    SinkFault,
    /// Memory ran out for a further line.
    Memory,
    /// Nothing was heard of a transfer.
    Stuck,
    /// The source gave too much.
    TooLong,
}

// Writes the line that was made of a reply, or where that found no memory that it didn't. Answers which, and whether the
// sink took it all.
fn say_late<O: Sink>(
    out: &mut O,
    reply: Reply,
    line: Result<Text, Memory>,
) -> (Reply, Result<(), SinkFault>)
    requires late { IsTrue (is_made_late reply) }
    requires line { IfOk line (λ text. text ≡ reply_text reply) }
    ensures says { Says reply result.0 }
    ensures whole { OnOk result.1 (WhereTold (O.held out.old) (O.held out.new) (λ a b. b ≡ a ++ reply_text result.0)) }
    ensures front { OnErr result.1 (WhereTold (O.held out.old) (O.held out.new) (λ a b. WritesFront (reply_text result.0) a b)) }
    ensures later { O.faults out.old ≤ O.faults out.new }
    ensures cause { OnErr result.1 (Rose (O.faults out.old) (O.faults out.new)) }
    ensures well { OnOk result.1 (O.faults out.new ≡ O.faults out.old) }
{
    match line {
        Ok(text) => (reply, write_all(out, text.as_bytes())),
        Err(Memory) => (
            Reply::Refused(Refusal::Memory),
            write_all(out, memory_text()),
        ),
    }
}

// Writes the reply to a line, and nothing for a silent one. Answers what was written, and whether the sink
// took it all.
fn say<O: Sink>(alloc: Global, out: &mut O, answer: Reply) -> (Reply, Result<(), SinkFault>)
    ensures says { Says answer result.0 }
    ensures whole { OnOk result.1 (WhereTold (O.held out.old) (O.held out.new) (λ a b. b ≡ a ++ reply_text result.0)) }
    ensures front { OnErr result.1 (WhereTold (O.held out.old) (O.held out.new) (λ a b. WritesFront (reply_text result.0) a b)) }
    ensures later { O.faults out.old ≤ O.faults out.new }
    ensures cause { OnErr result.1 (Rose (O.faults out.old) (O.faults out.new)) }
    ensures well { OnOk result.1 (O.faults out.new ≡ O.faults out.old) }
{
    match answer {
        Reply::Silent => (Reply::Silent, write_all(out, b"")),
        Reply::Ok => (Reply::Ok, write_all(out, b"ok\n")),
        Reply::Posted => (Reply::Posted, write_all(out, b"posted\n")),
        Reply::Stepped(turns) => say_late(out, Reply::Stepped(turns), show_stepped(alloc, turns)),
        Reply::Synced(made) => say_late(out, Reply::Synced(made), show_synced(alloc, made)),
        Reply::Migrated(moved) => {
            say_late(out, Reply::Migrated(moved), show_migrated(alloc, moved))
        }
        Reply::Lines(text) => {
            let wrote = write_all(out, text.as_bytes());
            (Reply::Lines(text), wrote)
        }
        Reply::Answers { text, refused } => {
            let wrote = write_all(out, text.as_bytes());
            (Reply::Answers { text, refused }, wrote)
        }
        Reply::Refused(why) => {
            let line = refusal_line(alloc, &why);
            say_late(out, Reply::Refused(why), line)
        }
    }
}

// Whether nothing was heard of a transfer, so that the run ends.
fn is_stuck(reply: &Reply) -> bool
    ensures { IsTrue result ↔ IsStuck reply.now }
{
    match reply {
        Reply::Refused(Refusal::Stuck) => true,
        _ => false,
    }
}

// The count of refusals with those of this reply.
fn with_refusals(refused: u32, reply: &Reply) -> u32
    requires { refused + refusals_of reply.now < 2 ^ 32 }
    ensures { result ≡ refused + refusals_of reply.now }
{
    match reply {
        Reply::Refused(_) => refused + 1,
        Reply::Answers {
            text: _,
            refused: more,
        } => refused + *more,
        Reply::Silent
        | Reply::Ok
        | Reply::Posted
        | Reply::Stepped(_)
        | Reply::Synced(_)
        | Reply::Migrated(_)
        | Reply::Lines(_) => refused,
    }
}

// Why the run ends with a line, if so: nothing was heard of a transfer, or else the sink failed.
fn stop_after(stuck: bool, failed: bool) -> Option<Stop>
    ensures { result ≡ stop_after stuck failed }
{
    if stuck {
        Some(Stop::Stuck)
    } else if failed {
        Some(Stop::SinkFault)
    } else {
        None
    }
}

/// Writes the reply to a line. Answers how many lines are refused with it, and why the run ends with it, if so.
pub fn write_reply<O: Sink>(
    alloc: Global,
    out: &mut O,
    answer: Reply,
    refused: u32,
) -> (u32, Option<Stop>)
    requires { refused + most_refusals answer < 2 ^ 32 }
    ensures { Tells answer refused result.0 (passage O.held O.faults out.old out.new) result.1 }
{
    let stuck = is_stuck(&answer);
    let (said, wrote) = say(alloc, out, answer);
    let refused = with_refusals(refused, &said);
    let stop = stop_after(stuck, wrote.is_err());
    (refused, stop)
}

// The next line of a source. Where none comes, why the run ends, if not since none is left.
fn read_line<I: Source>(
    alloc: Global,
    lines: &mut Lines,
    input: &mut I,
) -> Result<Rows<u8>, Option<Stop>>
    ensures line { IfOk result (ReadsLine lines.old lines.new (passage I.left I.faults input.old input.new)) }
    ensures none { IfErr result (ReadsNone lines.old lines.new (passage I.left I.faults input.old input.new)) }
{
    match lines.next_line(alloc, input) {
        NextLine::Line(line) => Ok(line),
        NextLine::End => Err(None),
        NextLine::Failed => Err(Some(Stop::SourceFault)),
        NextLine::TooLong => Err(Some(Stop::TooLong)),
        NextLine::Memory => Err(Some(Stop::Memory)),
    }
}

// A source gives at most so many lines: its bytes up to the limit, the last block, and a last line
// without a line feed.
const MOST_LINES: u32 = 16_842_753;

// How the lines of a source were done: what stands then, how many were refused, and why it stopped where
// it did so before the source's end.
#[derive(Drop)]
pub struct Done<S: Shelf> {
    pub stage: Stage<S>,
    pub refused: u32,
    pub stop: Option<Stop>,
}

// Does the lines of a source, and writes their replies.
pub fn do_lines<S: Shelf, I: Source, O: Sink, C: Clock>(
    alloc: Global,
    lines: &mut Lines,
    input: &mut I,
    out: &mut O,
    stage: Stage<S>,
    clock: &mut C,
    room: Room,
) -> Done<S>
    requires between { IsBetweenStage S.device stage }
    requires fits { IsFittingStage stage }
    requires none { stage.posts.items ≡ [] }
    requires room { IsRoom room }
    requires unread { lines.old ≡ record { front = []; block = []; given = 0 } }
    ensures goes { GoesAsking result.stop (without_facts (history_in stage)) room (state_in S.device stage (C.last clock.old)) (state_in S.device result.stage (C.last clock.new)) (passage I.left I.faults input.old input.new) (passage O.held O.faults out.old out.new) result.refused (C.asked clock.old) (C.asked clock.new) }
    ensures off { result.stop ≡ Some Stop.Stuck → session_in result.stage ≡ None }
    ensures between { (result.stop ≡ Some Stop.Stuck → ⊥) → IsBetweenStage S.device result.stage }
    ensures fits { IsFittingStage result.stage }
    ensures rooms { without_facts (history_in result.stage) ≡ without_facts (history_in stage) }
{
    let mut stage = stage;
    let mut refused = 0;
    for _ in 0..MOST_LINES {
        let line = match read_line(alloc, lines, input) {
            Ok(line) => line,
            Err(stop) => {
                return Done {
                    stage,
                    refused,
                    stop,
                };
            }
        };
        let text = line.as_slice();
        let did = match answer_line(alloc, &mut stage, text) {
            InPlace::Done(reply) => {
                // Such lines are many in long scripts, and a stage is large to move.
                let (count, stop) = write_reply(alloc, out, reply, refused);
                refused = count;
                if stop.is_some() {
                    return Done {
                        stage,
                        refused,
                        stop,
                    };
                }
                continue;
            }
            did => did,
        };
        let answered = finish_line(alloc, stage, did, clock, room, text);
        stage = answered.stage;
        let (count, stop) = write_reply(alloc, out, answered.reply, refused);
        refused = count;
        if stop.is_some() {
            return Done {
                stage,
                refused,
                stop,
            };
        }
    }
    unreachable!()
}
