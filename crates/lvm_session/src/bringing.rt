//! The copy that is being brought up.

use lvm_num::{DiskSet, Pbuf, Pp};

/// What it does about the track group at its cursor.
#[derive(Drop)]
pub enum Step {
    /// Nothing yet.
    Idle,
    /// It reads the copy on this partition.
    Reading { source: Pp },
    /// It has the track group in hand.
    Read { buf: Pbuf },
    /// It writes it.
    Writing,
}

/// How it ended.
#[derive(Clone, Copy)]
pub enum CopyEnd {
    /// It is fresh.
    Done,
    /// Its disk failed, or each copy that it might be read from.
    SyncFailed,
    /// No copy was there that it might be read from.
    NoFresh,
    /// The group went off, or the power did.
    Ended,
}

/// A copy of one logical partition that is brought up track group by track group. A track group has 256
/// blocks.
#[derive(Drop)]
pub struct OpenCopy {
    /// The number of its volume.
    pub lv: u16,
    /// The logical partition, from 0.
    pub lp: u32,
    /// The copy, from 1.
    pub copy: u8,
    /// The physical partition that it is, or to which it moves.
    pub pp: Pp,
    /// Whether it moves there: no volume has the partition yet.
    pub moves: bool,
    /// The track groups of the logical partition below this one, from 0, are copied.
    pub cursor: u32,
    pub step: Step,
    /// The disks whose copies were read in vain for the track group at the cursor.
    pub tried: DiskSet,
    /// Its place in the hold queue, while it has one.
    pub place: u64,
    /// How many transfers had failed when it was opened, on the disk of each copy of the logical partition, from
    /// the first copy on, 0 where there is none; and on its own disk.
    pub faults: [u64; 4],
    /// None while it is being brought up.
    pub end: Option<CopyEnd>,
}
