//! Where data lies: partitions and sectors of disks.

/// A physical partition: the number of its disk, and its own number on that disk from 0.
#[derive(Clone, Copy, PartialEq, Eq)]
pub struct Pp {
    pub disk: u16,
    pub pp: u16,
}

/// A sector of 512 bytes: the number of its disk, and its own number on that disk from 0.
#[derive(Clone, Copy)]
pub struct Place {
    pub disk: u16,
    pub sector: u64,
}
