//! To which slot of each disk its next record goes.
ghost use Rattle.std.specs.Prelude.{◌≡◌, ◌==◌, ◌<◌, ℕ, not, if◌then◌else◌};
ghost use Rattle.lvm_num.specs.Disks.{has};
ghost use Rattle.lvm_rec.specs.Homes.{second_slots, Flips};

use lvm_num::{DiskSet, Kind};

/// For each kind of record the disks whose next write goes to slot 1, and not to slot 0.
#[derive(Clone, Copy)]
pub struct Homes {
    pub descriptor: DiskSet,
    pub status: DiskSet,
}

impl Homes {
    /// Whether the next write of the kind to a disk goes to slot 1.
    pub fn is_second(&self, kind: Kind, disk: u16) -> bool
        requires { disk < 128 }
        ensures { result ≡ second_slots kind self.now disk }
    {
        match kind {
            Kind::Descriptor => self.descriptor.has(disk),
            Kind::Status => self.status.has(disk),
        }
    }

    /// Lets the next write of the kind to a disk go to the other slot.
    pub fn flip(&mut self, kind: Kind, disk: u16)
        requires { disk < 128 }
        ensures { Flips kind (λ d. d == disk) self.old self.new }
    {
        match kind {
            Kind::Descriptor => self.descriptor = toggled(self.descriptor, disk),
            Kind::Status => self.status = toggled(self.status, disk),
        }
    }
}

fn toggled(set: DiskSet, disk: u16) -> DiskSet
    requires { disk < 128 }
    ensures { (d : ℕ) → has result d ≡ (if d == disk then not (has set d) else has set d) }
{
    if set.has(disk) {
        set.without(disk)
    } else {
        set.with(disk)
    }
}
