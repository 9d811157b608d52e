//! What a session answers.

/// Why a request isn't taken, in this order.
#[derive(Clone, Copy, Debug, PartialEq, Eq)]
pub enum AskFault {
    /// The power was cut.
    Dark,
    /// The members that aren't missing had too few votes to write.
    Off,
    /// The group has no volume of this number.
    NoVolume,
    /// The volume has only so many blocks of 512 bytes.
    OutOfRange { blocks: u64 },
    /// So many requests are open, and there is room for no more.
    TableFull { held: u32 },
    /// The history has no room for three entries more and the blocks, or fewer than 65,536 numbers are left for
    /// the stamps of records.
    HistoryFull,
}

/// What a turn made.
#[derive(Clone, Copy, PartialEq, Eq)]
pub enum Turned {
    /// One event.
    Moved,
    /// Nothing: no event may be made, and no transfer is out or none has ended.
    Idle,
    /// The power is off, and the session is over.
    Dark,
    /// The members that aren't missing have too few votes to write, and the session is over.
    Off,
}

/// The answer of a request.
#[derive(Clone, Copy, PartialEq, Eq)]
pub enum Taken {
    /// The blocks of the write stood on each fresh copy when it landed.
    Done,
    /// The blocks of the read stand in the history, so many from the block `place` on.
    Got { place: u64, count: u32 },
    /// The write failed on each copy that was fresh.
    Lost,
    /// The read failed on each copy.
    ReadFailed,
    /// No copy could be used.
    NoFresh,
    /// The group went off before it landed.
    Off,
    /// The power went off before it landed.
    Dark,
    /// It hasn't landed.
    NotYet,
    /// It isn't this client's, or its answer was taken.
    Unknown,
}

/// Why a copy isn't brought up, in this order.
#[derive(Clone, Copy, PartialEq, Eq)]
pub enum CopyFault {
    /// The power was cut.
    Dark,
    /// The members that aren't missing had too few votes to write.
    Off,
    /// Another copy is open.
    Busy,
    /// The group has no volume of this number.
    NoVolume,
    /// The volume has no such logical partition or no such copy.
    OutOfRange,
    /// The committed status or the one in flight calls it fresh.
    AlreadyFresh,
    /// Its disk is missing.
    Missing { disk: u16 },
    /// No other copy of the logical partition is usable.
    NoFresh,
    /// Fewer than 65,536 numbers are left for the stamps of records.
    HistoryFull,
}

/// Why a copy doesn't move, in this order.
#[derive(Clone, Copy, PartialEq, Eq)]
pub enum OpenFault {
    /// The power was cut.
    Dark,
    /// The members that aren't missing had too few votes to write.
    Off,
    /// Another copy is open.
    Busy,
    /// The group has no volume of this number.
    NoVolume,
    /// The volume has no such logical partition or no such copy.
    OutOfRange,
    /// A volume has the partition, or its member hasn't.
    InUse,
    /// Its disk is missing.
    Missing { disk: u16 },
    /// No copy of the logical partition is usable.
    NoFresh,
    /// Fewer than 65,536 numbers are left for the stamps of records.
    HistoryFull,
    /// Memory was wanting for the next descriptor.
    Memory,
}

/// How far the copy is that is open.
#[derive(Clone, Copy, PartialEq, Eq)]
pub enum CopyState {
    /// No copy is open.
    Closed,
    /// It is being brought up, and the track groups of its logical partition below this one, from 0, are copied; or
    /// it has ended, and a transfer of it is out, or a request that hasn't landed has the destination of a move as a target.
    Running { cursor: u32 },
    /// It is fresh; a move is all copied, and to be committed.
    Done,
    /// Its disk failed, which is carried, or each copy that it might be read from.
    SyncFailed { disk: u16 },
    /// No copy was there that it might be read from.
    NoFresh,
    /// The group went off, or the power did.
    Ended,
}
