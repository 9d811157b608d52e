//! What a listing counts.
ghost use Rattle.std.specs.Prelude.{◌≡◌, ◌==◌, ◌&&◌, ◌≤◌, count_by, Contains};
ghost use Rattle.lvm_num.specs.declared.place.Pp.{Pp};
ghost use Rattle.lvm_num.specs.Descriptor.{IsValid, partitions_used};
ghost use Rattle.lvm_num.specs.Status.{calls_stale};
ghost use Rattle.lvm_map.specs.FirstFit.{has_partition_on};
ghost use Rattle.lvm_show.specs.Counts.{all_partitions, free_on, all_free, all_stale, stale_on, stale_in, missing_members, carriers, quorum_votes};

use lvm_num::{Descriptor, LvRow, Pp, PvRow, has_partition_on};
use lvm_status::StaleTable;

/// The partitions of all members.
pub fn all_partitions(d: &Descriptor) -> u64
    requires { IsValid d.now }
    ensures { result ≡ all_partitions d.now }
{
    d.pvs.as_slice().iter().map(|row| u64::from(row.pps)).sum()
}

/// The partitions of a member that no volume has.
pub fn free_on(d: &Descriptor, row: &PvRow) -> u64
    requires valid { IsValid d.now }
    requires member { Contains d.now.pvs row.now }
    ensures free { result ≡ free_on d.now row.now }
    ensures most { result ≤ row.now.pps }
{
    u64::from(row.pps) - used_on(d, row.disk)
}

/// The partitions that no volume has.
pub fn all_free(d: &Descriptor) -> u64
    requires { IsValid d.now }
    ensures { result ≡ all_free d.now }
{
    let pvs = d.pvs.as_slice();
    let mut free = 0;
    for row in pvs {
        free += free_on(d, row);
    }
    free
}

// How many partitions of a disk volumes have.
fn used_on(d: &Descriptor, disk: u16) -> u64
    requires { IsValid d.now }
    ensures { result ≡ count_by (λ (pp : Pp). pp.disk == disk) (partitions_used d.now) }
{
    let lvs = d.lvs.as_slice();
    let mut used = 0;
    for row in lvs {
        used += count_on(row.map.as_slice(), disk);
    }
    used
}

// How many of these are on a disk.
fn count_on(map: &[Pp], disk: u16) -> u64
    ensures { result ≡ count_by (λ (pp : Pp). pp.disk == disk) map.now }
{
    map.iter().filter(|pp| pp.disk == disk).count() as u64
}

/// The stale partitions of volumes.
pub fn all_stale(d: &Descriptor, t: &StaleTable) -> u64
    requires { IsValid d.now }
    ensures { result ≡ all_stale d.now t.now }
{
    let lvs = d.lvs.as_slice();
    let mut stale = 0;
    for row in lvs {
        stale += stale_in(t, row);
    }
    stale
}

/// The stale partitions of a volume.
pub fn stale_in(t: &StaleTable, row: &LvRow) -> u64
    ensures { result ≡ stale_in t.now row.now }
{
    row.map
        .as_slice()
        .iter()
        .filter(|pp| t.is_stale(**pp))
        .count() as u64
}

/// The stale partitions of volumes on a disk.
pub fn stale_on(d: &Descriptor, t: &StaleTable, disk: u16) -> u64
    requires { IsValid d.now }
    ensures { result ≡ stale_on d.now t.now disk }
{
    let lvs = d.lvs.as_slice();
    let mut stale = 0;
    for row in lvs {
        stale += count_stale_on(t, row.map.as_slice(), disk);
    }
    stale
}

// How many of these are on a disk and stale.
fn count_stale_on(t: &StaleTable, map: &[Pp], disk: u16) -> u64
    ensures { result ≡ count_by (λ (pp : Pp). pp.disk == disk && calls_stale t.now pp) map.now }
{
    map.iter()
        .filter(|pp| pp.disk == disk && t.is_stale(**pp))
        .count() as u64
}

/// The members that are missing.
pub fn missing_members(d: &Descriptor, t: &StaleTable) -> u64
    ensures { result ≡ missing_members d.now t.now }
{
    d.pvs
        .as_slice()
        .iter()
        .filter(|row| t.is_missing(row.disk))
        .count() as u64
}

/// The members that carry a volume.
pub fn carriers(d: &Descriptor, row: &LvRow) -> u64
    ensures { result ≡ carriers d.now row.now }
{
    let map = row.map.as_slice();
    d.pvs
        .as_slice()
        .iter()
        .filter(|member| has_partition_on(map, member.disk))
        .count() as u64
}

/// The votes with which the group stays on.
pub fn quorum_votes(d: &Descriptor) -> u32
    requires { IsValid d.now }
    ensures { result ≡ quorum_votes d.now }
{
    if d.quorum { d.total_votes() / 2 + 1 } else { 1 }
}
