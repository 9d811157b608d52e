//! A range of a volume that is asked for.

/// A range of blocks of a volume that was asked for. The requests of its pieces are client 1's, and have consecutive
/// numbers.
#[derive(Clone, Copy, PartialEq, Eq)]
pub struct Asked {
    /// The number of its first request.
    pub first: u64,
    /// How many there are.
    pub pieces: u32,
    /// The first block, counted in the volume.
    pub at: u64,
    /// The size of a partition of its group, in MiB.
    pub mib: u16,
    /// The block of the history, from 0, at which its blocks begin.
    pub place: u64,
}
