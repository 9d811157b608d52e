//! What a volume group is: its disks, its volumes and where they lie.

ghost use Rattle.std.specs.Prelude.{◌↔◌, ◌≡◌, IsTrue};

use crate::listed::has_member;
use crate::valid::{are_maps, are_volumes, is_size, partition_counts};
use crate::{DiskSet, Name, Pp, Rows};

/// How the copies of a volume are made equal after a crash (`mklv -w`).
#[derive(Clone, Copy, PartialEq, Eq)]
pub enum Mode {
    /// A track group is noted on disk before its data is written (`y`, `a`).
    Active,
    /// The whole volume is marked dirty before its first write (`p`).
    Passive,
    /// Nothing is noted (`n`).
    Off,
}

/// In which order the copies of a volume are written and read (`mklv -d`).
#[derive(Clone, Copy, PartialEq, Eq)]
pub enum Policy {
    /// Written at once, read from the copy whose disk has the fewest transfers out (`p`).
    Parallel,
    /// Written one after the other, read from the first (`s`).
    Sequential,
    /// Written at once, read from the first (`ps`).
    ParallelWrite,
    /// Written at once, read from each copy in turn (`pr`).
    RoundRobin,
}

/// A member: a physical volume of the group.
#[derive(Clone, Copy, PartialEq, Eq)]
pub struct PvRow {
    /// The number of its disk, 0 to 127.
    pub disk: u16,
    /// How many physical partitions it has, 1 to 1,016.
    pub pps: u16,
    /// Whether it is kept free for partitions of missing disks (`chpv -h`).
    pub spare: bool,
}

/// A logical volume.
#[derive(Drop, PartialEq, Eq)]
pub struct LvRow {
    /// From 1; at most 255, or 511 in a big group.
    pub number: u16,
    pub name: Name,
    /// How many copies each logical partition has, 1 to 3.
    pub copies: u8,
    pub mode: Mode,
    pub policy: Policy,
    /// How many logical partitions it has.
    pub lps: u32,
    /// The copies of the first logical partition, in their order, then those of the next.
    pub map: Rows<Pp>,
}

/// A volume group, as its descriptor area says it.
#[derive(Drop, PartialEq, Eq)]
pub struct Descriptor {
    /// The moment of its `mkvg`.
    pub id: u64,
    pub name: Name,
    /// The size of a partition in MiB.
    pub mib: u16,
    /// Whether more than half of the votes must be there (`chvg -Q y`).
    pub quorum: bool,
    /// Whether two members have a vote each, and not the first one two.
    pub even: bool,
    /// Whether it may have 128 members and 511 volumes, and not 32 and 255 (`chvg -B`).
    pub big: bool,
    /// Its members, in the order in which they came.
    pub pvs: Rows<PvRow>,
    /// Its volumes, by rising numbers.
    pub lvs: Rows<LvRow>,
}

impl Descriptor {
    ghost use Rattle.lvm_num.specs.Descriptor.{IsHead, IsValid};
    ghost use Rattle.lvm_num.specs.Disks.{has};
    ghost use Rattle.lvm_num.specs.Votes.{votes_of, votes_in, total_votes, is_enough_to_read, is_enough_to_write};

    /// Whether it is one that a record may state.
    pub fn is_valid(&self) -> bool
        ensures { IsTrue result ↔ IsValid self.now }
    {
        let Some(counts) = partition_counts(self.pvs.as_slice()) else {
            return false;
        };
        let lvs = self.lvs.as_slice();
        self.is_head() && are_volumes(self.big, lvs) && are_maps(&counts, lvs)
    }

    // Whether what stands before the rows is valid.
    fn is_head(&self) -> bool
        ensures { IsTrue result ↔ IsHead self.now }
    {
        let _field = self.name.as_field();
        let (most_members, most_volumes) = if self.big { (128, 511) } else { (32, 255) };
        let members = self.pvs.len();
        self.id != 0
            && is_size(self.mib)
            && (!self.even || members == 2)
            && 1 <= members
            && members <= most_members
            && self.lvs.len() <= most_volumes
    }

    /// The votes of a disk, which has none where it is no member.
    pub fn votes(&self, disk: u16) -> u32
        requires { IsValid self.now }
        ensures { result ≡ votes_of self.now disk }
    {
        let pvs = self.pvs.as_slice();
        if !has_member(pvs, disk) {
            return 0;
        }
        let first = pvs[0].disk == disk;
        if first && pvs.len() < 3 && !self.even {
            2
        } else {
            1
        }
    }

    /// The votes of the members in a set.
    pub fn votes_in(&self, disks: DiskSet) -> u32
        requires { IsValid self.now }
        ensures { result ≡ votes_in self.now (has disks) }
    {
        let mut votes = 0;
        for row in self.pvs.as_slice() {
            if disks.has(row.disk) {
                votes += self.votes(row.disk);
            }
        }
        votes
    }

    /// The votes of all members.
    pub fn total_votes(&self) -> u32
        requires { IsValid self.now }
        ensures { result ≡ total_votes self.now }
    {
        let members = self.pvs.len() as u32;
        if members < 3 && !self.even {
            members + 1
        } else {
            members
        }
    }

    /// Whether a group varies on with these votes: more than half of all, or all of them where
    /// quorum checking is off.
    pub fn enough_to_read(&self, have: u32) -> bool
        requires { IsValid self.now }
        ensures { result ≡ is_enough_to_read self.now have }
    {
        let total = self.total_votes();
        if self.quorum {
            u64::from(total) < 2 * u64::from(have)
        } else {
            total <= have
        }
    }

    /// Whether a record that these votes have counts as written, and a session stays on with them:
    /// more than half of all, or any where quorum checking is off.
    pub fn enough_to_write(&self, have: u32) -> bool
        requires { IsValid self.now }
        ensures { result ≡ is_enough_to_write self.now have }
    {
        if self.quorum {
            u64::from(self.total_votes()) < 2 * u64::from(have)
        } else {
            0 < have
        }
    }
}
