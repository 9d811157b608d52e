//! Why a range of a volume isn't asked for.

/// Why a range isn't asked for, in this order.
#[derive(Clone, Copy, Debug, PartialEq, Eq)]
pub enum AskRangeFault {
    /// The group has no volume of this number.
    NoVolume,
    /// The volume has only so many blocks of 512 bytes.
    OutOfRange { blocks: u64 },
    /// So many requests are open, and there isn't room for one more for each piece.
    TableFull { held: u32 },
    /// The history has no room for three entries for each piece or for the blocks, or fewer than 65,536 numbers are
    /// left for the stamps of records.
    HistoryFull,
}
