//! Which ranges were written on a shelf in memory.
ghost use Rattle.std.specs.Prelude.{◌≡◌, ◌≤◌, [], Some, IfOk, if◌then◌else◌};
ghost use Rattle.lvm_memory.specs.Log.{logged};

use lvm_num::Memory;
use std::alloc::Global;
use std::marker::Model;

/// A run of sectors of a disk that was written.
#[derive(Clone, Copy)]
pub struct WriteRange {
    pub disk: u16,
    pub first: u64,
    pub count: u32,
}

/// A log with room for some ranges. Once it is full and one more comes, it tells nothing any more.
#[derive(Drop)]
pub struct WriteLog {
    ranges: Vec<WriteRange>,
    room: u32,
    full: bool,
}

impl Model for WriteLog {
    ghost use Rattle.std.specs.Prelude.{◌≤◌, map, Some, None, if◌then◌else◌, vec_capacity};
    ghost use Rattle.lvm_memory.specs.Log.{Logged, range_of};

    ghost Value = { Logged };

    ghost view = { λ l. record { wrote = (if l.full then None else Some (map range_of l.ranges.items)); room = l.room } };

    ghost invariant = { λ l. l.room ≤ vec_capacity l.ranges };
}

impl WriteLog {
    /// An empty log.
    pub fn new(alloc: Global, room: u32) -> Result<WriteLog, Memory>
        ensures { IfOk result (λ log. log ≡ record { wrote = Some []; room = room }) }
    {
        match Vec::with_capacity(alloc, room as usize) {
            Ok(ranges) => Ok(WriteLog {
                ranges,
                room,
                full: false,
            }),
            Err(_) => Err(Memory),
        }
    }

    /// A transfer of this range was started. The range is noted where the transfer writes.
    pub fn note(&mut self, write: bool, disk: u16, first: u64, count: u32)
        ensures wrote { self.new.wrote ≡ (if write then logged self.old.room self.old.wrote (record { disk = disk; first = first; count = count }) else self.old.wrote) }
        ensures room { self.new.room ≡ self.old.room }
    {
        if !write {
            return;
        }
        if self.ranges.len() < self.room as usize {
            match self.ranges.push(WriteRange { disk, first, count }) {
                Ok(()) => {}
                Err(_) => unreachable!(),
            }
        } else {
            self.full = true;
        }
    }
}
