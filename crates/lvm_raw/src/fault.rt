//! Why a range of a disk isn't read or written.

/// Why a range of a disk isn't read or written, in the order in which the causes are looked for.
#[derive(Clone, Copy, PartialEq, Eq)]
pub enum RawFault {
    /// The shelf has no such disk.
    NoDisk { disk: u16 },
    /// The range isn't within the disk's data, which goes from sector 4,096 to its end; it has so many sectors.
    OutOfRange { blocks: u64 },
    /// The history has no room for three entries for each piece, or for the blocks.
    HistoryFull,
    /// The power was cut; it is on again.
    Dark,
    /// Nothing was heard of a transfer until the patience had run out. It is still out.
    Stuck,
    /// A read of the disk's descriptor slots failed.
    DiskFailed { disk: u16 },
    /// A descriptor slot of the disk holds a valid descriptor.
    InGroup { disk: u16 },
    /// The disk failed in a write, the first that didn't end well.
    Lost,
    /// The disk failed in a read, the first that didn't end well.
    ReadFailed,
    /// Want of memory. No request was made.
    Memory,
}
