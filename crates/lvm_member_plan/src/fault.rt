//! Why members didn't leave a group.

/// Why members didn't leave a group.
#[derive(Clone, Copy, Drop)]
pub enum ReduceFault {
    /// The power was cut, and is off.
    Dark,
    /// The members that aren't missing, or those that were reached, have so many votes of so many, too few to write by a descriptor on the way.
    WentOff { have: u32, total: u32 },
    /// A request is open.
    Busy,
    /// The group has no such member.
    NoDisk { disk: u16 },
    /// All members are named.
    LastDisk,
    /// A volume has a partition on the disk.
    DiskInUse { disk: u16 },
    /// By the last descriptor the members that aren't missing have so many votes of so many, too few to write.
    NoQuorum { have: u32, total: u32 },
    /// The history has few entries to spare, or the session few sequence numbers left.
    HistoryFull,
    /// Nothing was heard of a transfer until the patience had run out.
    Stuck,
    /// Want of memory.
    Memory,
}
