//! What was found on each disk of a shelf.

use crate::below::Note;
use lvm_num::{Descriptor, Rows, Stamp, Status};

/// What was found on one disk.
#[derive(Drop)]
pub struct SurveyRow {
    pub disk: u16,
    /// A read of the disk's records failed; what it has is not known then.
    pub failed: bool,
    /// How large the disk is. One of fewer than 4,096 sectors isn't read.
    pub sectors: u64,
    /// The newest valid descriptor and its stamp, which without one is (0, 0).
    pub descriptor: Option<Descriptor>,
    pub descriptor_stamp: Stamp,
    /// The newest valid status and its stamp, which without one is (0, 0).
    pub status: Option<Status>,
    pub status_stamp: Stamp,
    /// The consistency record, where it is valid.
    pub note: Option<Note>,
    /// The slots with the newest descriptor and the newest status, 2 where neither slot has one.
    pub homes: [u8; 2],
}

/// What was found on the disks of a shelf: a row for each, in the order of their numbers.
#[derive(Drop)]
pub struct Survey {
    pub rows: Rows<SurveyRow>,
}
