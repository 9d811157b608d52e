//! How a session began.

use lvm_status::below::StaleTable;

/// What there was already when a session began, so that it tells of no fault in it.
#[derive(Drop)]
pub struct Origin {
    /// How many transfers of each disk had failed by then.
    pub faults: [u64; 128],
    /// The status with which it began, in which the partitions of copies that were made since are stale too.
    pub table: StaleTable,
}
