//! How far the writes of an update are.
ghost use Rattle.std.specs.Prelude.{◌≡◌};

use crate::below::DiskSet;

/// For each state that the write of an update to a disk may be in, the disks whose writes are in it.
#[derive(Clone, Copy)]
pub struct Writes {
    /// Its write isn't started.
    pub unstarted: DiskSet,
    /// Its write is started and hasn't ended.
    pub started: DiskSet,
    /// Its write has ended well: the disk has the update.
    pub written: DiskSet,
    /// Its write has failed: the disk is missing since.
    pub failed: DiskSet,
}

impl Writes {
    ghost use Rattle.lvm_status.specs.passed.Num.{has};
    ghost use Rattle.lvm_status.specs.Update.{no_disks};

    /// An update whose writes to these disks are still to be started.
    pub(crate) fn to(disks: DiskSet) -> Writes
        ensures unstarted { result.unstarted ≡ disks }
        ensures started { has result.started ≡ no_disks }
        ensures written { has result.written ≡ no_disks }
        ensures failed { has result.failed ≡ no_disks }
    {
        let none = DiskSet::empty();
        Writes {
            unstarted: disks,
            started: none,
            written: none,
            failed: none,
        }
    }

    /// No writes at all.
    pub(crate) fn none() -> Writes
        ensures unstarted { has result.unstarted ≡ no_disks }
        ensures started { has result.started ≡ no_disks }
        ensures written { has result.written ≡ no_disks }
        ensures failed { has result.failed ≡ no_disks }
    {
        Writes::to(DiskSet::empty())
    }
}
