//! What a run meets beside its script and its disks.

use crate::fault::Fault;
use crate::parse;
use lvm_io::{MemSink, MemSource};
use lvm_memory::Planned;
use lvm_num::Rows;
use std::alloc::Global;

/// How many bytes a sink has room for where nothing else is said.
const AMPLE: usize = 65_536;

/// What is planned for the disks, which reads of the source fail, and how many bytes the sink takes.
#[derive(Drop)]
pub struct Outside {
    plan: Vec<Planned>,
    fails: Vec<u64>,
    room: usize,
}

/// Where a run reads its script and writes its replies.
#[derive(Drop)]
pub struct Streams {
    pub input: MemSource,
    pub out: MemSink,
}

impl Outside {
    /// Nothing fails.
    pub(crate) fn new(alloc: Global) -> Outside {
        Outside {
            plan: Vec::new(alloc),
            fails: Vec::new(alloc),
            room: AMPLE,
        }
    }

    pub(crate) fn plan(&self) -> &[Planned] {
        &self.plan
    }

    /// Plans an act.
    pub(crate) fn push_act(&mut self, text: &str) -> Result<(), Fault> {
        let planned = parse::planned(text)?;
        Ok(self.plan.push(planned)?)
    }

    /// Lets a read of the source fail.
    pub(crate) fn push_fault(&mut self, text: &str) -> Result<(), Fault> {
        let read = parse::number(text)?;
        Ok(self.fails.push(read)?)
    }

    /// Gives the sink another room.
    pub(crate) fn set_room(&mut self, text: &str) -> Result<(), Fault> {
        self.room = parse::small(text)? as usize;
        Ok(())
    }

    /// A source of this script.
    pub(crate) fn source(&self, alloc: Global, script: &[u8]) -> Result<MemSource, Fault> {
        let bytes = Vec::from_slice(alloc, script)?;
        let fails = Vec::from_slice(alloc, &self.fails)?;
        Ok(MemSource::new(Rows::new(bytes), Rows::new(fails)))
    }

    /// A sink.
    pub(crate) fn sink(&self, alloc: Global) -> Result<MemSink, Fault> {
        sink(alloc, self.room)
    }

    /// A source of this script, and a sink.
    pub(crate) fn streams(&self, alloc: Global, script: &[u8]) -> Result<Streams, Fault> {
        let input = self.source(alloc, script)?;
        let out = self.sink(alloc)?;
        Ok(Streams { input, out })
    }
}

fn sink(alloc: Global, room: usize) -> Result<MemSink, Fault> {
    Ok(MemSink::new(alloc, room, Rows::empty(alloc))?)
}

/// A sink with ample room.
pub(crate) fn ample(alloc: Global) -> Result<MemSink, Fault> {
    sink(alloc, AMPLE)
}
