//! Why copies aren't rebuilt.
use lvm_migrate::MoveFault;

/// Why copies on missing disks aren't rebuilt, or no more of them; those that were before stay.
#[derive(Clone, Copy)]
pub enum RebuildFault {
    /// As copies don't move: `Busy`, also where a request is open, or `HistoryFull` at entry; later `HistoryFull`, `NoFresh` where
    /// no copy of a logical partition is usable, or what ends a move. Not `Missing`, `Strict` or `NoRoom`.
    Move(MoveFault),
    /// No spare takes a copy of this logical partition, from 0.
    NoSpare { lp: u32 },
}
