//! A script of requests that are drawn from a seed.
ghost use Rattle.lvm_program.specs.Program.{IsGenerated};
ghost use Rattle.lvm_top.specs.Script.{passage};

use lvm_io::Sink;
use lvm_load::{ScriptFault, write_script};
use lvm_top::ExitStatus;
use std::alloc::Global;

/// Writes a script of so many requests, which are drawn from the seed. The status is Well, SinkFault or Memory; where it
/// isn't Well a front of the script was written.
pub fn run_gen<O: Sink>(alloc: Global, seed: u64, count: u32, out: &mut O) -> ExitStatus
    ensures { IsGenerated seed count result (passage O.held O.faults out.old out.new) }
{
    match write_script(alloc, seed, count, out) {
        Ok(()) => ExitStatus::Well,
        Err(ScriptFault::Sink) => ExitStatus::SinkFault,
        Err(ScriptFault::Memory) => ExitStatus::Memory,
    }
}
