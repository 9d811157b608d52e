//! The records that a disk has below its data.
ghost use Rattle.std.specs.Prelude.{◌≡◌};
ghost use Rattle.lvm_num.specs.Record.{stamp_lt};

use crate::Rows;

/// When a record was written: by the moment at which its session began, then by its number
/// among the record writes of that session.
#[derive(Clone, Copy, PartialEq, Eq, PartialOrd, Ord)]
pub struct Stamp {
    /// The moment of the session's `mkvg` or `varyonvg`.
    pub epoch: u64,
    /// Rises by one from 1 at each record write of a session.
    pub seq: u32,
}

impl Stamp {
    /// Whether it is earlier than the other one: `<`, which is what all laws of stamps speak of.
    pub fn is_before(self, other: Stamp) -> bool
        ensures { result ≡ stamp_lt self other }
    {
        self < other
    }
}

/// The two kinds of framed record, each with two slots on a disk.
#[derive(Clone, Copy)]
pub enum Kind {
    /// The volume group descriptor area: the members, the volumes and their maps.
    Descriptor,
    /// The volume group status area: stale partitions, missing disks and dirty volumes.
    Status,
}

/// A framed record: a content under its stamp.
#[derive(Drop)]
pub struct Framed {
    pub stamp: Stamp,
    /// At most 571,388 bytes of a descriptor, 31,740 of a status.
    pub content: Rows<u8>,
}

/// An entry of a disk's consistency record: a track group of a volume, 256 blocks, from 0.
#[derive(Clone, Copy, Default, PartialEq, Eq)]
pub struct NoteEntry {
    pub lv: u16,
    pub group: u32,
}
