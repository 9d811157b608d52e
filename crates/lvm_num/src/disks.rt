//! A set of disks.
ghost use Rattle.std.specs.Prelude.{◌≡◌, ◌<◌, ℕ, false, ◌==◌, ◌||◌, ◌&&◌, not, IsTrue, IfSome};

use std::marker::Model;

/// How many disks a shelf may have.
pub const DISKS: u16 = 128;

/// A set of disks by their numbers, 0 to 127. Contracts see a number, whose members `has` tells.
#[derive(Clone, Copy, PartialEq, Eq)]
pub struct DiskSet(u128);

impl Model for DiskSet {
    ghost use Rattle.std.specs.Prelude.{ℕ, ◌<◌, ◌^◌};

    ghost Value = { ℕ };

    ghost view = { λ set. set.0 };

    ghost invariant = { λ set. set.0 < 2 ^ 128 };

    ghost inverse = { λ bits. record { 0 = bits } };
}

impl DiskSet {
    ghost use Rattle.lvm_num.specs.Disks.{IsLowest, has};

    /// No disks.
    pub fn empty() -> DiskSet
        ensures { (disk : ℕ) → has result disk ≡ false }
    {
        DiskSet(0)
    }

    /// Whether the disk is in the set.
    pub fn has(&self, disk: u16) -> bool
        requires { disk < 128 }
        ensures member { result ≡ has self.now disk }
        ensures disks { (other : ℕ) → IsTrue (has self.now other) → other < 128 }
    {
        self.0 >> disk & 1 == 1
    }

    /// The set with the disk, which may be in it already.
    pub fn with(&self, disk: u16) -> DiskSet
        requires { disk < 128 }
        ensures { (other : ℕ) → has result other ≡ (has self.now other || other == disk) }
    {
        DiskSet(self.0 | 1 << disk)
    }

    /// The set without the disk, which need not be in it.
    pub fn without(&self, disk: u16) -> DiskSet
        requires { disk < 128 }
        ensures { (other : ℕ) → has result other ≡ (has self.now other && not (other == disk)) }
    {
        DiskSet(self.0 & !(1 << disk))
    }

    /// The lowest disk of the set.
    pub fn lowest(&self) -> Option<u16>
        ensures lowest { IsLowest (has self.now) result }
        ensures within { IfSome result (λ disk. disk < 128) }
    {
        for disk in 0..128 {
            if self.has(disk) {
                return Some(disk);
            }
        }
        None
    }
}
