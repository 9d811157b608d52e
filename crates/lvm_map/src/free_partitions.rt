//! The free partitions of a group, as first fit takes them.
ghost use Rattle.std.specs.Prelude.{◌≡◌, ℕ, ◌≤◌, ◌*◌, ◌<◌, ◌==◌, ◌||◌, not, [], length, filter, map, sum_by, position, All, IfOk};
ghost use Rattle.std.specs.List.{list_any};
ghost use Rattle.std.specs.declared.alloc.Global.{Global};
ghost use Rattle.std.specs.declared.collections.VecDeque.{VecDeque};
ghost use Rattle.lvm_num.specs.declared.place.Pp.{Pp};
ghost use Rattle.lvm_num.specs.Bits.{has_bit};
ghost use Rattle.lvm_num.specs.Descriptor.{IsValid, IsMember, partitions_used};
ghost use Rattle.lvm_num.specs.Disks.{has};
ghost use Rattle.lvm_num.specs.Marks.{spot};
ghost use Rattle.lvm_map.specs.FirstFit.{has_partition_on, may_take, partitions_of};
ghost use Rattle.lvm_map.specs.FreePartitions.{is_open, free_partitions, IsBounded, TakesFirstFree};

use lvm_num::{
    DISKS, Descriptor, DiskSet, MOST_PARTITIONS, Memory, Pp, PvRow, has_bit, has_partition_on,
    set_bit,
};
use std::alloc::Global;
use std::collections::VecDeque;
use std::marker::Model;

const MARKS: usize = DISKS as usize * MOST_PARTITIONS as usize / 8;

/// The free partitions of each member that may take copies, the members in the descriptor's order
/// and the partitions by their numbers. Contracts see these lists.
#[derive(Drop)]
pub struct FreePartitions {
    members: Vec<VecDeque<Pp>>,
}

impl Model for FreePartitions {
    ghost use Rattle.std.specs.Prelude.{List, map};
    ghost use Rattle.lvm_num.specs.declared.place.Pp.{Pp};

    ghost Value = { List (List Pp) };

    ghost view = { λ r. map (λ free. free.items) r.members.items };
}

impl FreePartitions {
    /// What is free of the usable members that are no spares.
    pub fn of(alloc: Global, d: &Descriptor, usable: DiskSet) -> Result<FreePartitions, Memory>
        requires { IsValid d.now }
        ensures { IfOk result (λ room. room ≡ free_partitions d.now (has usable) (partitions_used d.now)) }
    {
        let marks = used_marks(d);
        let mut members = Vec::new(alloc);
        for row in d.pvs.as_slice() {
            if may_take(usable, row) {
                members.push(free_of(alloc, &marks, *row)?)?;
            }
        }
        Ok(FreePartitions { members })
    }

    /// How many partitions are free.
    pub fn free(&self) -> u32
        requires members { length self.now ≤ 128 }
        requires each { All (λ free. length free ≤ 1016) self.now }
        ensures { result ≡ sum_by length self.now }
    {
        let mut free = 0;
        for member in &self.members {
            free += member.len() as u32;
        }
        free
    }

    /// Takes the first free partition of the first member that has one and none of these others.
    pub fn take(&mut self, others: &[Pp]) -> Option<Pp>
        ensures { TakesFirstFree others.now self.old self.new result }
    {
        let member = first_open(&self.members, others)?;
        self.members[member].pop_front()
    }
}

// Whether a member may take copies: it is usable, and no spare.
fn may_take(usable: DiskSet, row: &PvRow) -> bool
    requires { row.now.disk < 128 }
    ensures { result ≡ may_take (has usable) [] row.now }
{
    usable.has(row.disk) && !row.spare
}

fn first_open(members: &[VecDeque<Pp>], others: &[Pp]) -> Option<usize>
    ensures { result ≡ position (λ (free : VecDeque Pp Global). is_open others.now free.items) members.now }
{
    members.iter().position(|free| is_open(others, free))
}

fn is_open(others: &[Pp], free: &VecDeque<Pp>) -> bool
    ensures { result ≡ is_open others.now free.now.items }
{
    match free.front() {
        Some(pp) => !has_partition_on(others, pp.disk),
        None => false,
    }
}

// The partitions of a member whose bits aren't set.
fn free_of(alloc: Global, marks: &[u8; 16256], row: PvRow) -> Result<VecDeque<Pp>, Memory>
    requires { IsMember row }
    ensures { IfOk result (λ free. free.items ≡ filter (λ pp. not (has_bit marks.now (spot pp))) (partitions_of row)) }
{
    let mut free = VecDeque::new(alloc);
    for k in 0..row.pps {
        let pp = Pp {
            disk: row.disk,
            pp: k,
        };
        if !has_bit(marks, spot_of(pp)) {
            free.push_back(pp)?;
        }
    }
    Ok(free)
}

// A bit for each partition that a volume uses.
fn used_marks(d: &Descriptor) -> [u8; 16256]
    requires { IsValid d.now }
    ensures { (k : ℕ) → has_bit result k ≡ list_any (λ pp. k == spot pp) (partitions_used d.now) }
{
    let mut marks = [0; MARKS];
    for row in d.lvs.as_slice() {
        mark_all(&mut marks, row.map.as_slice());
    }
    marks
}

fn mark_all(marks: &mut [u8; 16256], map: &[Pp])
    requires { All IsBounded map.now }
    ensures { (k : ℕ) → has_bit marks.new k ≡ (has_bit marks.old k || list_any (λ pp. k == spot pp) map.now) }
{
    for pp in map {
        set_bit(marks, spot_of(*pp));
    }
}

// The number of a partition among those of all disks.
fn spot_of(pp: Pp) -> usize
    ensures { result ≡ spot pp }
{
    usize::from(MOST_PARTITIONS) * usize::from(pp.disk) + usize::from(pp.pp)
}
