//! Which partitions are stale, which disks are missing, and which volumes are dirty.

ghost use Rattle.std.specs.Prelude.{◌↔◌, IsTrue};

use crate::valid::{are_dirty, are_status_rows};
use crate::{Rows, VolumeNumbers};

/// What a status says of one member.
#[derive(Clone, Copy, PartialEq, Eq)]
pub struct StatusRow {
    /// The number of its disk, 0 to 127.
    pub disk: u16,
    pub missing: bool,
    /// Partition k is stale where the bit of value `2^(k mod 8)` is set in byte `k / 8`.
    pub stale: [u8; 127],
}

/// The state of a volume group, as its status area says it.
#[derive(Drop, PartialEq, Eq)]
pub struct Status {
    /// The id of the group.
    pub id: u64,
    /// Whether the group is big.
    pub big: bool,
    /// The numbers of the volumes with passive consistency that may differ after a crash, rising.
    pub dirty: VolumeNumbers,
    /// By rising disk numbers.
    pub rows: Rows<StatusRow>,
}

impl Status {
    ghost use Rattle.lvm_num.specs.Status.{IsValidStatus};

    /// Whether it is one that a record may state.
    pub fn is_valid(&self) -> bool
        ensures { IsTrue result ↔ IsValidStatus self.now }
    {
        let most = if self.big { 128 } else { 32 };
        let rows = self.rows.as_slice();
        self.id != 0
            && !rows.is_empty()
            && rows.len() <= most
            && are_status_rows(rows)
            && are_dirty(self.dirty.as_slice())
    }
}
