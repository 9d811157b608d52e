//! Why a command on a session wasn't carried out.

use lvm_core::CommitFault;

/// Why a command on a session wasn't carried out.
#[derive(Clone, Copy, Drop)]
pub enum GroupFault {
    /// The power was cut, and is off.
    Dark,
    /// The members that aren't missing have so many votes of so many, too few to write.
    WentOff { have: u32, total: u32 },
    /// A request is open.
    Busy,
    /// The group has no such volume.
    NoVolume,
    /// A volume of the group has the name.
    VolumeExists,
    /// A volume can't have so many copies; it has so many now.
    CopyLimit { now: u8 },
    /// A copy that would become one of another volume can't be used: of this logical partition, from 0, first.
    StaleCopy { lp: u32 },
    /// A copy that would go is fresh, and none that would stay can be used: of this logical partition, from 0, first.
    LastFresh { lp: u32 },
    /// The group has as many volumes as it may have.
    TooMany { limit: u32 },
    /// The free partitions, of which there are so many, have no place for the copies.
    NoRoom { free: u32 },
    /// The history has no room for the entries, or the session few sequence numbers left.
    HistoryFull,
    /// A transfer of the disk failed.
    DiskFailed { disk: u16 },
    /// Nothing was heard of a transfer until the patience had run out.
    Stuck,
    /// Want of memory.
    Memory,
}

impl From<CommitFault> for GroupFault {
    ghost use Rattle.std.specs.Prelude.{◌≡◌};
    ghost use Rattle.lvm_volume_plan.specs.Faults.{fault_of};

    ghost from_gives = { λ fault group. group ≡ fault_of fault };

    fn from(fault: CommitFault) -> GroupFault {
        match fault {
            CommitFault::Dark => GroupFault::Dark,
            CommitFault::WentOff { have, total } => GroupFault::WentOff { have, total },
            CommitFault::DiskFailed { disk } => GroupFault::DiskFailed { disk },
            CommitFault::Stuck => GroupFault::Stuck,
        }
    }
}
