//! Why copies aren't brought up.

/// Why copies aren't brought up, in this order. The last three don't end a resync: it goes on, and answers the first of
/// them at its end.
#[derive(Clone, Copy, Debug, PartialEq, Eq)]
pub enum SyncFault {
    /// The power is off, and the session is over.
    Dark,
    /// The members that aren't missing have too few votes to write, and the session is over.
    Off,
    /// Nothing was heard of the transfers that are out until the patience had run out. The copy stays open.
    Stuck,
    /// A copy is open.
    Busy,
    /// The group has no volume of this number.
    NoVolume,
    /// The volume has no such logical partition.
    OutOfRange,
    /// Fewer than 65,536 numbers are left for the stamps of records.
    HistoryFull,
    /// The disk of a stale copy failed, which is carried, or each copy that it might be read from.
    SyncFailed { disk: u16 },
    /// No copy of a logical partition, from 0, could be read.
    NoFresh { lp: u32 },
    /// The disk of a stale copy is missing.
    Missing { disk: u16 },
}
