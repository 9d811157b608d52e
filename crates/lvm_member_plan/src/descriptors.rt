//! The descriptors of a group on the way to one with fewer members.
ghost use Rattle.std.specs.Prelude.{◌≡◌, IfOk};
ghost use Rattle.lvm_core.specs.Committing.{is_in};
ghost use Rattle.lvm_change_laws.specs.Rule.{staying};
ghost use Rattle.lvm_member_plan.specs.Descriptors.{without_members, with_even, is_first, is_used};

use lvm_num::{Descriptor, Memory, PvRow, Rows, clone_descriptor, has_partition_on};
use std::alloc::Global;

/// Whether a disk is one of these.
pub fn is_in(disks: &[u16], disk: u16) -> bool
    ensures { result ≡ is_in disks.now disk }
{
    disks.iter().any(|other| disk == *other)
}

/// The group without its members on these disks, even or not.
pub fn without_members(
    alloc: Global,
    d: &Descriptor,
    disks: &[u16],
    even: bool,
) -> Result<Descriptor, Memory>
    ensures { IfOk result (λ next. next ≡ without_members disks.now even d.now) }
{
    let pvs = staying(alloc, d.pvs.as_slice(), disks)?;
    let mut next = clone_descriptor(alloc, d)?;
    next.pvs = Rows::new(pvs);
    next.even = even;
    Ok(next)
}

// The members that aren't on these disks.
fn staying(alloc: Global, rows: &[PvRow], disks: &[u16]) -> Result<Vec<PvRow>, Memory>
    ensures { IfOk result (λ pvs. pvs.items ≡ staying (is_in disks.now) rows.now) }
{
    let mut pvs = Vec::new(alloc);
    for row in rows {
        if !is_in(disks, row.disk) {
            pvs.push(*row)?;
        }
    }
    Ok(pvs)
}

/// The group even or not.
pub fn with_even(alloc: Global, d: &Descriptor, even: bool) -> Result<Descriptor, Memory>
    ensures { IfOk result (λ next. next ≡ with_even even d.now) }
{
    let mut next = clone_descriptor(alloc, d)?;
    next.even = even;
    Ok(next)
}

/// Whether the disk is that of the first member.
pub fn is_first(d: &Descriptor, disk: u16) -> bool
    ensures { result ≡ is_first d.now disk }
{
    match d.pvs.as_slice().first() {
        Some(row) => row.disk == disk,
        None => false,
    }
}

/// Whether a volume has a partition on the disk.
pub fn is_used(d: &Descriptor, disk: u16) -> bool
    ensures { result ≡ is_used d.now disk }
{
    d.lvs
        .as_slice()
        .iter()
        .any(|row| has_partition_on(row.map.as_slice(), disk))
}
