//! A source, a sink and a clock in memory. They fail at the calls that they are told to fail at.
ghost use Rattle.std.specs.Prelude.{◌≡◌, ◌<◌, ◌≤◌, [], Some, None, length, IfOk};
ghost use Rattle.lvm_io.specs.Count.{Rose, next_count};
ghost use Rattle.lvm_io.specs.Stream.{ReadGives, WriteGives};

use crate::stream::{Clock, Got, Images, Put, Sink, Source};
use lvm_num::{Memory, Rows};
use std::alloc::Global;
use std::marker::Model;

/// A source in memory. Contracts see what is left of it, its failing calls and its counts.
#[derive(Drop)]
pub struct MemSource {
    bytes: Rows<u8>,
    at: usize,
    fails: Rows<u64>,
    calls: u64,
    faults: u64,
}

impl Model for MemSource {
    ghost use Rattle.std.specs.Prelude.{◌≤◌, drop, length};
    ghost use Rattle.lvm_io.specs.Memory.{SourceState};

    ghost Value = { SourceState };

    ghost view = { λ s. record { left = drop s.at s.bytes; fails = s.fails; calls = s.calls; faults = s.faults } };

    ghost invariant = { λ s. s.at ≤ length s.bytes };
}

impl MemSource {
    /// A source of these bytes. Its reads are counted from 1, and those whose numbers stand in `fails`
    /// fail.
    pub fn new(bytes: Rows<u8>, fails: Rows<u64>) -> MemSource
        ensures { result ≡ record { left = bytes; fails = fails; calls = 0; faults = 0 } }
    {
        MemSource {
            bytes,
            at: 0,
            fails,
            calls: 0,
            faults: 0,
        }
    }
}

impl Source for MemSource {
    ghost use Rattle.lvm_io.specs.Memory.{read_answer, source_after};

    ghost left = { λ s. Some s.left };

    ghost faults = { λ s. s.faults };

    fn read(&mut self, into: &mut [u8]) -> Got
        requires { 0 < length into.old }
        ensures bytes { ReadGives (Some self.old.left) (Some self.new.left) into.new result }
        ensures later { self.old.faults ≤ self.new.faults }
        ensures cause { result ≡ Got.Failed → Rose self.old.faults self.new.faults }
        ensures well { (result ≡ Got.Failed → ⊥) → self.new.faults ≡ self.old.faults }

        // It fails at the told calls alone, and gives as many bytes as it can.
        ensures answer { result ≡ read_answer self.old (length into.old) }
        ensures after { self.new ≡ source_after self.old result }
    {
        self.calls = self.calls.saturating_add(1);
        if self.fails.as_slice().contains(&self.calls) {
            self.faults = self.faults.saturating_add(1);
            return Got::Failed;
        }
        let left = self.bytes.as_slice().split_at(self.at).1;
        if left.is_empty() {
            return Got::End;
        }
        let count = left.len().min(into.len());
        into[..count].copy_from_slice(&left[..count]);
        self.at += count;
        Got::Bytes(count)
    }
}

/// A sink in memory. Contracts see the bytes that it took, its room, its failing calls, its counts, the
/// disk that was chosen and how often one was.
#[derive(Drop)]
pub struct MemSink {
    bytes: Vec<u8>,
    room: usize,
    fails: Rows<u64>,
    calls: u64,
    faults: u64,
    disk: Option<u16>,
    choices: u64,
}

impl Model for MemSink {
    ghost use Rattle.std.specs.Prelude.{◌≤◌, length};
    ghost use Rattle.std.specs.Vec.{vec_capacity};
    ghost use Rattle.lvm_io.specs.Memory.{SinkState};

    ghost Value = { SinkState };

    ghost view = { λ s. record { bytes = s.bytes.items; room = s.room; fails = s.fails; calls = s.calls; faults = s.faults; chosen = s.disk; choices = s.choices } };

    ghost invariant = { λ s. (length s.bytes.items ≤ s.room) × (s.room ≤ vec_capacity s.bytes) };
}

impl MemSink {
    /// A sink that has room for so many bytes, which are reserved here. Its writes are counted from 1,
    /// and those whose numbers stand in `fails` fail, as does each once it is full.
    pub fn new(alloc: Global, room: usize, fails: Rows<u64>) -> Result<MemSink, Memory>
        ensures { IfOk result (λ sink. sink ≡ record { bytes = []; room = room; fails = fails; calls = 0; faults = 0; chosen = None; choices = 0 }) }
    {
        match Vec::with_capacity(alloc, room) {
            Ok(bytes) => Ok(MemSink {
                bytes,
                room,
                fails,
                calls: 0,
                faults: 0,
                disk: None,
                choices: 0,
            }),
            Err(_) => Err(Memory),
        }
    }

    /// The bytes that it took, since a disk was chosen where one was.
    pub fn bytes(&self) -> &[u8]
        ensures { result.now ≡ self.now.bytes }
    {
        &self.bytes
    }
}

impl Sink for MemSink {
    ghost use Rattle.lvm_io.specs.Memory.{write_answer, sink_after};

    ghost held = { λ s. Some s.bytes };

    ghost faults = { λ s. s.faults };

    ghost chosen = { λ s. s.chosen };

    ghost choices = { λ s. s.choices };

    fn write(&mut self, from: &[u8]) -> Put
        requires { 0 < length from.now }
        ensures bytes { WriteGives (Some self.old.bytes) (Some self.new.bytes) from.now result }
        ensures image { (self.new.chosen ≡ self.old.chosen) × (self.new.choices ≡ self.old.choices) }
        ensures later { self.old.faults ≤ self.new.faults }
        ensures cause { result ≡ Put.Failed → Rose self.old.faults self.new.faults }
        ensures well { (result ≡ Put.Failed → ⊥) → self.new.faults ≡ self.old.faults }

        // It fails at the told calls and where it is full alone, and takes as many bytes as it can.
        ensures answer { result ≡ write_answer self.old (length from.now) }
        ensures after { self.new ≡ sink_after self.old from.now result }
    {
        self.calls = self.calls.saturating_add(1);
        if self.fails.as_slice().contains(&self.calls) {
            self.faults = self.faults.saturating_add(1);
            return Put::Failed;
        }
        let count = from.len().min(self.room - self.bytes.len());
        if count == 0 || self.bytes.extend_from_slice(&from[..count]).is_err() {
            self.faults = self.faults.saturating_add(1);
            return Put::Failed;
        }
        Put::Took(count)
    }
}

impl Images for MemSink {
    fn choose(&mut self, disk: u16)
        ensures image { self.new.chosen ≡ Some disk }
        ensures once { self.new.choices ≡ next_count self.old.choices }
        ensures empty { self.new.bytes ≡ [] }
        ensures well { self.new.faults ≡ self.old.faults }
        ensures after { self.new ≡ record self.old { bytes = []; chosen = Some disk; choices = next_count self.old.choices } }
    {
        self.bytes.clear();
        self.disk = Some(disk);
        self.choices = self.choices.saturating_add(1);
    }
}

/// A clock in memory.
#[derive(Drop)]
pub struct MemClock {
    first: u64,
    last: u64,
    asked: u64,
}

impl Model for MemClock {
    ghost use Rattle.std.specs.Prelude.{◌≤◌};
    ghost use Rattle.lvm_io.specs.Memory.{ClockState};

    ghost Value = { ClockState };

    ghost view = { λ c. record { first = c.first; last = c.last; asked = c.asked } };

    ghost invariant = { λ c. 1 ≤ c.first };
}

impl MemClock {
    /// A clock that answers `first`, and then one more at each call.
    pub fn new(first: u64) -> MemClock
        requires { 1 ≤ first }
        ensures { result ≡ record { first = first; last = 0; asked = 0 } }
    {
        MemClock {
            first,
            last: 0,
            asked: 0,
        }
    }
}

impl Clock for MemClock {
    ghost use Rattle.lvm_io.specs.Memory.{moment_after};

    ghost last = { λ c. c.last };

    ghost asked = { λ c. c.asked };

    fn now(&mut self) -> u64
        ensures some { 1 ≤ result }
        ensures last { self.new.last ≡ result }
        ensures later { Rose self.old.last result }
        ensures asked { self.new.asked ≡ next_count self.old.asked }

        ensures answer { result ≡ moment_after self.old }
        ensures after { self.new ≡ record self.old { last = result; asked = next_count self.old.asked } }
    {
        self.asked = self.asked.saturating_add(1);
        self.last = if self.last == 0 {
            self.first
        } else {
            self.last.saturating_add(1)
        };
        self.last
    }
}
