//! Why members didn't join a group.

/// Why members didn't join a group.
#[derive(Clone, Copy, Drop)]
pub enum ExtendFault {
    /// The power was cut, and is off.
    Dark,
    /// The members that aren't missing, or those that were reached, have so many votes of so many, too few to write by a descriptor on the way.
    WentOff { have: u32, total: u32 },
    /// A request is open.
    Busy,
    /// There is no such disk.
    NoDisk { disk: u16 },
    /// The disk is a member.
    InGroup { disk: u16 },
    /// The group would have more members than this.
    TooMany { limit: u32 },
    /// No partition fits on the disk.
    TooSmall { disk: u16 },
    /// The history has few entries to spare, or the session few sequence numbers left.
    HistoryFull,
    /// A transfer of the disk failed.
    DiskFailed { disk: u16 },
    /// A disk shows another group.
    GroupExists,
    /// A disk shows a record of this moment, which isn't before that of the session.
    ClockBack { seen: u64 },
    /// Nothing was heard of a transfer until the patience had run out.
    Stuck,
    /// Want of memory.
    Memory,
}
