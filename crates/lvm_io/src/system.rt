//! Readers, writers and the clock of the system as a source, a sink and a clock. They tell no content.
ghost use Rattle.std.specs.Prelude.{◌≡◌, None};

use crate::stream::{Clock, Got, Put, Sink, Source};
use std::io::{Read, Write};
use std::marker::Model;
use std::rt;

/// A reader of the system as a source. Contracts see the number of its faults.
#[derive(Drop)]
pub struct StdSource<R> {
    reader: R,
    faults: u64,
}

impl<R> Model for StdSource<R> {
    ghost use Rattle.std.specs.Prelude.{ℕ};

    ghost Value = { ℕ };

    ghost view = { λ s. s.faults };
}

impl<R: Read> StdSource<R> {
    pub fn new(reader: R) -> StdSource<R>
        ensures { result ≡ 0 }
    {
        StdSource { reader, faults: 0 }
    }
}

impl<R: Read> Source for StdSource<R> {
    ghost left = { λ _. None };

    ghost faults = { λ s. s };

    fn read(&mut self, into: &mut [u8]) -> Got {
        match self.reader.read(into) {
            Ok(0) => Got::End,
            Ok(count) => Got::Bytes(count),
            Err(_) => {
                self.faults = self.faults.saturating_add(1);
                Got::Failed
            }
        }
    }
}

/// A writer of the system as a sink. Contracts see the number of its faults.
#[derive(Drop)]
pub struct StdSink<W> {
    writer: W,
    faults: u64,
}

impl<W> Model for StdSink<W> {
    ghost use Rattle.std.specs.Prelude.{ℕ};

    ghost Value = { ℕ };

    ghost view = { λ s. s.faults };
}

impl<W: Write> StdSink<W> {
    pub fn new(writer: W) -> StdSink<W>
        ensures { result ≡ 0 }
    {
        StdSink { writer, faults: 0 }
    }
}

impl<W: Write> Sink for StdSink<W> {
    ghost held = { λ _. None };

    ghost faults = { λ s. s };

    fn write(&mut self, from: &[u8]) -> Put {
        match self.writer.write(from) {
            Ok(count) if count > 0 => Put::Took(count),
            _ => {
                self.faults = self.faults.saturating_add(1);
                Put::Failed
            }
        }
    }
}

/// The clock of the system. Its moments are microseconds since 1970. Where the system gives no time, or
/// none later than the last moment, it is one more than that. Contracts see the last moment and how
/// often it was asked.
#[derive(Drop)]
pub struct SystemClock<K> {
    clock: K,
    last: u64,
    asked: u64,
}

impl<K> Model for SystemClock<K> {
    ghost use Rattle.lvm_io.specs.Memory.{Asked};

    ghost Value = { Asked };

    ghost view = { λ c. record { last = c.last; asked = c.asked } };
}

impl<K: rt::Clock> SystemClock<K> {
    pub fn new(clock: K) -> SystemClock<K>
        ensures { result ≡ record { last = 0; asked = 0 } }
    {
        SystemClock {
            clock,
            last: 0,
            asked: 0,
        }
    }
}

impl<K: rt::Clock> Clock for SystemClock<K> {
    ghost last = { λ c. c.last };

    ghost asked = { λ c. c.asked };

    fn now(&mut self) -> u64 {
        self.asked = self.asked.saturating_add(1);
        let told = match self.clock.since_1970() {
            Ok(since) => u64::try_from(since.as_micros()).unwrap_or(u64::MAX),
            Err(_) => 0,
        };
        self.last = told.max(self.last.saturating_add(1));
        self.last
    }
}
