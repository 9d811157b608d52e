//! The descriptor of a group with a member more.
ghost use Rattle.std.specs.Prelude.{◌≡◌, IfOk};
ghost use Rattle.lvm_extend_plan.specs.Descriptors.{with_member};

use lvm_num::{Descriptor, Memory, PvRow, Rows, clone_descriptor};
use std::alloc::Global;

/// The group with a member more, which comes last; two are even no more.
pub fn with_member(alloc: Global, d: &Descriptor, row: PvRow) -> Result<Descriptor, Memory>
    ensures { IfOk result (λ next. next ≡ with_member row d.now) }
{
    let mut pvs = Vec::from_slice(alloc, d.pvs.as_slice())?;
    pvs.push(row)?;
    let mut next = clone_descriptor(alloc, d)?;
    next.pvs = Rows::new(pvs);
    next.even = false;
    Ok(next)
}
