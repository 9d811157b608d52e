//! Why a group didn't come on.

use lvm_session_start::below::History;

/// The shelf and the history where a group didn't come on, and why.
#[derive(Drop)]
pub struct Refused<S> {
    pub shelf: S,
    pub history: History,
    pub cause: Cause,
}

/// Why a group didn't come on.
#[derive(Clone, Copy, PartialEq, Eq, Drop)]
pub enum Cause {
    /// The shelf has no such disk.
    NoDisk { disk: u16 },
    /// More disks are named than a group may have.
    TooMany { limit: u32 },
    /// No partition fits on the disk.
    TooSmall { disk: u16 },
    /// A disk of the shelf is in a group, or with force in one that has a volume.
    GroupExists,
    /// No disk shows a group of the name, or no voter of one shows a status.
    NoRecord,
    /// Two groups have the name.
    Ambiguous,
    /// The voters have so many votes of so many, too few for the group to vary on.
    NoQuorum { have: u32, total: u32 },
    /// The moment isn't later than this, or is the last that a clock may answer.
    ClockBack { seen: u64 },
    /// A transfer of the disk failed; of several disks this is the lowest.
    DiskFailed { disk: u16 },
    /// The history has no room for the entries.
    HistoryFull,
    /// The power was cut, and is off.
    Dark,
    /// Nothing was heard of a transfer until the patience had run out.
    Stuck,
    /// Want of memory.
    Memory,
}
