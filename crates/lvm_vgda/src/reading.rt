//! Reading a descriptor from its bytes.
ghost use Rattle.std.specs.Prelude.{IfOk, Ok};
ghost use Rattle.lvm_num.specs.declared.descriptor.Descriptor.{Descriptor as descriptor};
ghost use Rattle.lvm_num.specs.DescriptorBytes.{IsDescriptor, descriptor_of};
ghost use Rattle.lvm_vgda.specs.passed.Fields.{Gives, rest_of};
ghost use Rattle.lvm_vgda.specs.Parts.{descriptor_by_parts, rows_at};

use crate::below::{Fault, Unread, all, behind};
use crate::head::{begin_at, counts_at, name_at, rules_at};
use crate::maps::maps_at;
use crate::rows::{members_at, volumes_at};
use lvm_num::{Descriptor, LvRow, PvRow, Rows};
use std::alloc::Global;

/// The descriptor that the bytes spell, all of them. Other bytes than those that `encode` writes of a
/// valid descriptor are refused, with the place of the first fault.
pub fn decode(alloc: Global, bytes: &[u8]) -> Result<Descriptor, Fault>
    ensures spelled { IfOk result (IsDescriptor bytes.now) }
    ensures only { (d : descriptor) → IsDescriptor bytes.now d → Gives (λ x. x) result (Ok d) }
    ensures exact { Gives (λ x. x) result (descriptor_of bytes.now) }
{
    descriptor_of(alloc, bytes)
}

#[tactic(auto, unfolding(crate::specs::Parts::descriptor_by_parts))]
fn descriptor_of(alloc: Global, bytes: &[u8]) -> Result<Descriptor, Fault>
    ensures { Gives (λ d. d) result (descriptor_by_parts bytes.now) }
{
    let ((big, id), unread) = begin_at(all(bytes))?;
    let name = name_at(&[], unread)?;
    let unread = behind(16, unread);
    let ((mib, quorum, even), unread) = rules_at(unread)?;
    let (counts, unread) = counts_at(big, even, unread)?;
    let ((pvs, lvs), unread) = rows_at(alloc, big, counts, unread)?;
    if !unread.bytes.is_empty() {
        return Err(Fault::At(unread.place));
    }
    Ok(Descriptor {
        id,
        name,
        mib,
        quorum,
        even,
        big,
        pvs: Rows::new(pvs),
        lvs: Rows::new(lvs),
    })
}

// So many members, and so many volumes with their partitions.
#[tactic(auto, unfolding(crate::specs::Parts::rows_at))]
fn rows_at(
    alloc: Global,
    big: bool,
    counts: (u16, u16),
    unread: Unread,
) -> Result<((Vec<PvRow>, Vec<LvRow>), Unread), Fault>
    ensures { Gives (λ x. ((x.0.0.items, x.0.1.items), rest_of x.1)) result (rows_at big counts.0 counts.1 (rest_of unread.entry)) }
{
    let (pvs, unread) = members_at(alloc, counts.0, unread)?;
    let (lvs, unread) = volumes_at(alloc, big, counts.1, unread)?;
    let (lvs, unread) = maps_at(alloc, &pvs, lvs, unread)?;
    Ok(((pvs, lvs), unread))
}
