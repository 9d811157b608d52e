//! What may break a call off that makes transfers for a session.

/// Why something wasn't committed, zeros weren't written, or turns ended before nothing was left to be made.
#[derive(Clone, Copy, PartialEq, Eq, Drop)]
pub enum CommitFault {
    /// The power was cut, and is off.
    Dark,
    /// The members that aren't missing have so many votes of so many, too few to write.
    WentOff { have: u32, total: u32 },
    /// A transfer of the disk failed.
    DiskFailed { disk: u16 },
    /// Nothing was heard of a transfer until the patience had run out.
    Stuck,
}
