//! Room for what is kept of transfers.
ghost use Rattle.std.specs.Prelude.{◌≡◌, ◌≤◌, [], vec_capacity, Some, IfOk};

use crate::flying::Flying;
use crate::write_log::WriteLog;
use lvm_num::{Memory, Pbuf};
use std::alloc::Global;

/// Room for the transfers that are out, for the buffers that a cut gives up, and for the ranges of the log.
pub fn rooms(alloc: Global, log: u32) -> Result<(Vec<Flying>, Vec<Pbuf>, WriteLog), Memory>
    ensures flights { IfOk result (λ made. (made.0.items ≡ []) × (1024 ≤ vec_capacity made.0)) }
    ensures freed { IfOk result (λ made. (made.1.items ≡ []) × (1024 ≤ vec_capacity made.1)) }
    ensures log { IfOk result (λ made. made.2 ≡ record { wrote = Some []; room = log }) }
{
    let flights = room(alloc)?;
    let freed = room(alloc)?;
    let log = WriteLog::new(alloc, log)?;
    Ok((flights, freed, log))
}

// Room for each transfer that may be out.
fn room<T>(alloc: Global) -> Result<Vec<T>, Memory>
    ensures { IfOk result (λ v. (v.items ≡ []) × (1024 ≤ vec_capacity v)) }
{
    match Vec::with_capacity(alloc, 1024) {
        Ok(v) => Ok(v),
        Err(_) => Err(Memory),
    }
}
