//! The entries of a history.

use lvm_num::Mode;

/// What a request is on.
#[derive(Clone, Copy, PartialEq, Eq)]
pub enum Vol {
    /// A whole disk, by its number.
    Disk(u16),
    /// A logical volume, by its number in its group.
    Lv(u16),
}

/// How a request ended.
#[derive(Clone, Copy, PartialEq, Eq)]
pub enum Outcome {
    /// A write stands on each copy that is fresh.
    Done,
    /// A read has its blocks.
    Got,
    /// A write failed on every copy. Each of its blocks may be the old one or the new one.
    Lost,
    /// A read failed on every copy.
    ReadFailed,
    /// No copy could be used.
    NoFresh,
    /// The group went off before it ended.
    Off,
    /// The power went off before it ended.
    Dark,
}

/// An entry of a history. Blocks are of 512 bytes and counted from 0; ids count the requests of a run
/// from 1.
#[derive(Clone, Copy, PartialEq, Eq)]
pub enum Entry {
    /// A volume of so many blocks of zeros is about to be made.
    Making {
        lv: u16,
        blocks: u64,
        mode: Mode,
    },
    /// A volume is made.
    Made {
        lv: u16,
    },
    /// Some copies of the volume `from` are about to become the volume `lv`.
    Split {
        from: u16,
        lv: u16,
    },
    /// A volume is about to be removed.
    Removing {
        vol: Vol,
    },
    /// A volume is removed, or a disk has gone into a group.
    Removed {
        vol: Vol,
    },
    /// A request of `count` blocks from `at` on has begun. Its blocks stand in the history from `place`
    /// on.
    Begun {
        client: u32,
        id: u64,
        vol: Vol,
        at: u64,
        count: u32,
        write: bool,
        place: u64,
    },
    /// A request has ended; `started` says whether a transfer of it was started.
    Landed {
        id: u64,
        outcome: Outcome,
        started: bool,
    },
    /// A client has taken the answer of its request.
    Taken {
        client: u32,
        id: u64,
    },
    /// The power went off, and each request that was open is as it fell.
    Cut,
    /// A group was varied on at this moment.
    On {
        moment: u64,
    },
}
