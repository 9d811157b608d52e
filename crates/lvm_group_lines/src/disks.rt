//! The lines that read or write a range of a disk.
ghost use Rattle.std.specs.Prelude.{◌≡◌, ◌≤◌, ◌<◌, ◌+◌, ◌^◌, length, IfOk, IfErr};
ghost use Rattle.lvm_group_lines.specs.Disks.{WriteDoes, ReadDoes, refusal_by, write_reply, blocks_text};
ghost use Rattle.lvm_group_lines.specs.Ends.{EndsUnasked};
ghost use Rattle.lvm_group_lines.specs.Moments.{Aside};
ghost use Rattle.lvm_group_lines.specs.Replies.{Shows};
ghost use Rattle.lvm_group_lines.specs.Stages.{IsBetweenStage, IsFittingStage};

use crate::below::Closed;
use crate::below::quiesce::{read_disk, write_disk};
use crate::reply::{Refusal, Reply};
use crate::stage::{Answered, Stage};
use lvm_disk::Shelf;
use lvm_num::{Memory, Rows, Text};
use lvm_raw::RawFault;
use lvm_show::show_block;
use lvm_transfer::Patience;
use std::alloc::Global;

// A fault of a range, as the refusal of its line.
fn refusal_by(fault: RawFault) -> Refusal
    ensures { result ≡ refusal_by fault }
{
    match fault {
        RawFault::NoDisk { disk } => Refusal::NoDisk { disk },
        RawFault::OutOfRange { blocks } => Refusal::OutOfRange { blocks },
        RawFault::HistoryFull => Refusal::HistoryFull,
        RawFault::Dark => Refusal::Dark,
        RawFault::Stuck => Refusal::Stuck,
        RawFault::DiskFailed { disk } => Refusal::DiskFailed { disk },
        RawFault::InGroup { disk } => Refusal::InGroup { disk },
        RawFault::Lost => Refusal::Lost,
        RawFault::ReadFailed => Refusal::ReadFailed,
        RawFault::Memory => Refusal::Memory,
    }
}

// A line for each block, the first of this number.
fn blocks_text(alloc: Global, at: u64, blocks: &[[u8; 512]]) -> Result<Text, Memory>
    requires { at + length blocks.now < 2 ^ 64 }
    ensures { IfOk result (λ text. text ≡ blocks_text at blocks.now) }
{
    let mut text = String::new(alloc);
    let mut number = at;
    for block in blocks {
        text.push_str(show_block(alloc, number, block)?.as_str())?;
        number += 1;
    }
    Ok(Text::new(text))
}

/// The lines of blocks, the first of this number, if there is memory for them.
pub fn lines_reply(alloc: Global, at: u64, blocks: &[[u8; 512]]) -> Reply
    requires { at + length blocks.now < 2 ^ 64 }
    ensures { Shows (blocks_text at blocks.now) result }
{
    match blocks_text(alloc, at, blocks) {
        Ok(text) => Reply::Lines(text),
        Err(Memory) => Reply::Refused(Refusal::Memory),
    }
}

// The reply to a write.
fn write_reply(done: Result<(), RawFault>) -> Reply
    ensures { result ≡ write_reply done }
{
    match done {
        Ok(()) => Reply::Ok,
        Err(why) => Reply::Refused(refusal_by(why)),
    }
}

// The reply to a read: a line for each block, if there was memory for them.
fn read_reply(alloc: Global, at: u64, read: Result<Rows<[u8; 512]>, RawFault>) -> Reply
    requires { IfOk read (λ blocks. at + length blocks < 2 ^ 64) }
    ensures blocks { IfOk read (λ blocks. Shows (blocks_text at blocks) result) }
    ensures fault { IfErr read (λ why. result ≡ Reply.Refused (refusal_by why)) }
{
    match read {
        Ok(blocks) => lines_reply(alloc, at, blocks.as_slice()),
        Err(why) => Reply::Refused(refusal_by(why)),
    }
}

/// Writes a range of a disk, the first block filled with the word, once the transfers that are out have ended.
pub fn do_write<S: Shelf>(
    alloc: Global,
    stage: Stage<S>,
    disk: u16,
    at: u64,
    count: u32,
    word: u64,
) -> Answered<S>
    requires fits { IsFittingStage stage }
    requires between { IsBetweenStage S.device stage }
    requires some { 1 ≤ count }
    requires most { count ≤ 4096 }
    ensures { EndsUnasked S.device (λ log. WriteDoes log disk at count word) ⊥ Aside stage result.stage result.reply }
{
    match stage.into_off() {
        Ok((closed, posts, bytes)) => {
            let Closed {
                mut shelf,
                mut history,
            } = closed;
            let mut patience = Patience::whole();
            let done = write_disk(
                alloc,
                &mut shelf,
                &mut history,
                disk,
                at,
                count,
                word,
                &mut patience,
            );
            Stage::off(shelf, history, posts, bytes).answered(write_reply(done))
        }
        Err(stage) => stage.refused(Refusal::GroupOn),
    }
}

/// Reads a range of a disk, once the transfers that are out have ended.
pub fn do_read<S: Shelf>(
    alloc: Global,
    stage: Stage<S>,
    disk: u16,
    at: u64,
    count: u32,
) -> Answered<S>
    requires fits { IsFittingStage stage }
    requires between { IsBetweenStage S.device stage }
    requires some { 1 ≤ count }
    requires most { count ≤ 4096 }
    ensures { EndsUnasked S.device (λ log. ReadDoes log disk at count) ⊥ Aside stage result.stage result.reply }
{
    match stage.into_off() {
        Ok((closed, posts, bytes)) => {
            let Closed {
                mut shelf,
                mut history,
            } = closed;
            let mut patience = Patience::whole();
            let read = read_disk(
                alloc,
                &mut shelf,
                &mut history,
                disk,
                at,
                count,
                &mut patience,
            );
            Stage::off(shelf, history, posts, bytes).answered(read_reply(alloc, at, read))
        }
        Err(stage) => stage.refused(Refusal::GroupOn),
    }
}
