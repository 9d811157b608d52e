//! Lines of a source, one at a time, and whole texts to a sink.
ghost use Rattle.std.specs.Prelude.{◌≡◌, ◌<◌, ◌≤◌, ◌++◌, ◌↔◌, [], false, length, position, IfOk, OnOk, OnErr};
ghost use Rattle.lvm_io.specs.Count.{Rose};
ghost use Rattle.lvm_io.specs.Stream.{WhereTold, WritesFront};
ghost use Rattle.lvm_io.specs.Lines.{has_feed, is_feed, LinesLaw};

use crate::stream::{Got, Put, Sink, Source};
use lvm_num::{Memory, Rows};
use std::alloc::Global;
use std::marker::Model;
use std::mem;

/// How many bytes of a source are read at most as lines. Where it gives more, no further line is given
/// out.
pub const MOST_BYTES: u64 = 16_777_216;

/// How many bytes are read at once.
const BLOCK: usize = 65_536;

/// The answer of `next_line`.
#[derive(Drop)]
pub enum NextLine {
    /// The next line without its line feed, which the last line may lack.
    Line(Rows<u8>),
    /// No line is left.
    End,
    /// The source had a fault. Nothing was lost.
    Failed,
    /// The source gave more than `MOST_BYTES`.
    TooLong,
    /// No memory for a line that has begun. Nothing was lost.
    Memory,
}

/// The lines of a source, read block by block. Contracts see what was read and not yet given out, and
/// how many bytes the source gave in all.
#[derive(Drop)]
pub struct Lines {
    front: Vec<u8>,
    block: Vec<u8>,
    start: usize,
    end: usize,
    given: u64,
}

impl Model for Lines {
    ghost use Rattle.std.specs.Prelude.{◌≡◌, ◌≤◌, length, slice_range, false};
    ghost use Rattle.lvm_io.specs.Lines.{has_feed};
    ghost use Rattle.lvm_io.specs.Reading.{Reading};

    ghost Value = { Reading };

    ghost view = { λ l. record { front = l.front.items; block = slice_range l.block.items l.start l.end; given = l.given } };

    ghost invariant = { λ l. (has_feed l.front.items ≡ false) × (l.start ≤ l.end) × (l.end ≤ length l.block.items) × (length l.block.items ≡ 65536) };
}

impl Lines {
    ghost use Rattle.lvm_io.specs.Reading.{to_come, NextGives, LeavesFront, CountsGiven, LeavesFewer, TakesLine, Refills, TakesLast};

    /// The lines of a source of which nothing was read.
    pub fn new(alloc: Global) -> Result<Lines, Memory>
        ensures { IfOk result (λ lines. lines ≡ record { front = []; block = []; given = 0 }) }
    {
        match vec![in alloc; 0; BLOCK] {
            Ok(block) => Ok(Lines {
                front: Vec::new(alloc),
                block,
                start: 0,
                end: 0,
                given: 0,
            }),
            Err(_) => Err(Memory),
        }
    }

    /// The next line. The limit is judged at each read of the source, before the lines of that read.
    pub fn next_line<I: Source>(&mut self, alloc: Global, input: &mut I) -> NextLine
        ensures line { NextGives (to_come self.old (I.left input.old)) (to_come self.new (I.left input.new)) result }
        ensures front { LeavesFront self.new result }
        // Of any source only so many lines come.
        ensures fewer { LeavesFewer self.old self.new result }
        ensures given { CountsGiven self.old self.new (I.left input.old) (I.left input.new) }
        ensures too_long { (result ≡ NextLine.TooLong) ↔ (MOST_BYTES < self.new.given) }
        ensures later { I.faults input.old ≤ I.faults input.new }
        ensures cause { result ≡ NextLine.Failed → Rose (I.faults input.old) (I.faults input.new) }
        ensures well { (result ≡ NextLine.Failed → ⊥) → I.faults input.new ≡ I.faults input.old }
    {
        while self.given() <= MOST_BYTES {
            match self.take_line(alloc) {
                Ok(Some(line)) => return NextLine::Line(line),
                Ok(None) => {}
                Err(Memory) => return NextLine::Memory,
            }
            match self.refill(input) {
                Got::Bytes(_) => {}
                Got::End => return self.last_line(alloc),
                Got::Failed => return NextLine::Failed,
            }
        }
        NextLine::TooLong
    }

    // How many bytes the source gave. No line is whole before the block, and a read gives at most so many bytes.
    fn given(&self) -> u64
        ensures given { result ≡ self.now.given }
        ensures clean { has_feed self.now.front ≡ false }
        ensures block { length self.now.block ≤ 65536 }
    {
        self.given
    }

    // Takes the line that ends in the block, or puts the block behind the front where none does.
    fn take_line(&mut self, alloc: Global) -> Result<Option<Rows<u8>>, Memory>
        ensures { TakesLine self.old self.new result }
    {
        let block = &self.block[self.start..self.end];
        match first_feed(block) {
            Some(at) => {
                if self.front.extend_from_slice(&block[..at]).is_err() {
                    return Err(Memory);
                }
                self.start += at + 1;
                let line = mem::replace(&mut self.front, Vec::new(alloc));
                Ok(Some(Rows::new(line)))
            }
            None => {
                if self.front.extend_from_slice(block).is_err() {
                    // Where there are no bytes nothing is wanted.
                    return if block.is_empty() {
                        Ok(None)
                    } else {
                        Err(Memory)
                    };
                }
                self.start = self.end;
                Ok(None)
            }
        }
    }

    // Reads the next block.
    fn refill<I: Source>(&mut self, input: &mut I) -> Got
        requires empty { self.old.block ≡ [] }
        requires within { self.old.given ≤ MOST_BYTES }
        ensures block { Refills self.old self.new (I.left input.old) (I.left input.new) result }
        ensures later { I.faults input.old ≤ I.faults input.new }
        ensures cause { result ≡ Got.Failed → Rose (I.faults input.old) (I.faults input.new) }
        ensures well { (result ≡ Got.Failed → ⊥) → I.faults input.new ≡ I.faults input.old }
    {
        let got = input.read(&mut self.block);
        if let Got::Bytes(count) = got {
            self.start = 0;
            self.end = count;
            self.given += count as u64;
        }
        got
    }

    // The line that lacks its line feed, if there is one.
    fn last_line(&mut self, alloc: Global) -> NextLine
        ensures { TakesLast self.old self.new result }
    {
        if self.front.is_empty() {
            return NextLine::End;
        }
        let line = mem::replace(&mut self.front, Vec::new(alloc));
        NextLine::Line(Rows::new(line))
    }
}

// The place of the first line feed.
fn first_feed(bytes: &[u8]) -> Option<usize>
    ensures { result ≡ position is_feed bytes.now }
{
    bytes.iter().position(|byte| *byte == b'\n')
}

/// A sink that failed.
#[derive(Clone, Copy, PartialEq, Eq)]
pub struct SinkFault;

/// Writes the whole text, or a front of it before the sink fails.
pub fn write_all<O: Sink>(out: &mut O, text: &[u8]) -> Result<(), SinkFault>
    ensures whole { OnOk result (WhereTold (O.held out.old) (O.held out.new) (λ a b. b ≡ a ++ text.now)) }
    ensures front { OnErr result (WhereTold (O.held out.old) (O.held out.new) (λ a b. WritesFront text.now a b)) }
    ensures image { (O.chosen out.new ≡ O.chosen out.old) × (O.choices out.new ≡ O.choices out.old) }
    ensures later { O.faults out.old ≤ O.faults out.new }
    ensures cause { OnErr result (Rose (O.faults out.old) (O.faults out.new)) }
    ensures well { OnOk result (O.faults out.new ≡ O.faults out.old) }
{
    let mut rest = text;
    while !rest.is_empty() {
        match out.write(rest) {
            Put::Took(count) => rest = rest.split_at(count).1,
            Put::Failed => return Err(SinkFault),
        }
    }
    Ok(())
}

/// The lines of a text make up the text.
pub fn lines_make_the_text()
    ensures { LinesLaw }
{}
