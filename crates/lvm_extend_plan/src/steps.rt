//! The descriptors by which one member joins its group.
ghost use Rattle.std.specs.Prelude.{◌≡◌, length, false, true, IfOk};
ghost use Rattle.lvm_num.specs.Descriptor.{IsValid};
ghost use Rattle.lvm_extend_plan.specs.Steps.{MayJoin, AreStepsIn};

use crate::descriptors::with_member;
use lvm_member_plan::with_even;
use lvm_num::{Descriptor, Memory, PvRow};
use std::alloc::Global;

/// The descriptors by which a member joins.
#[derive(Drop)]
pub struct StepsIn {
    /// Before it joins, the two members become even.
    pub before: Option<Descriptor>,
    pub into: Descriptor,
}

/// The descriptors by which this member joins the group. Two members that aren't even become so first.
pub fn steps_in(alloc: Global, d: &Descriptor, row: PvRow) -> Result<StepsIn, Memory>
    requires valid { IsValid d.now }
    requires may { MayJoin d.now row }
    ensures { IfOk result (AreStepsIn d.now row) }
{
    if d.pvs.len() == 2 && !d.even {
        from_two(alloc, d, row)
    } else {
        at_once(alloc, d, row)
    }
}

// To two members that aren't even.
fn from_two(alloc: Global, d: &Descriptor, row: PvRow) -> Result<StepsIn, Memory>
    requires valid { IsValid d.now }
    requires may { MayJoin d.now row }
    requires two { length d.now.pvs ≡ 2 }
    requires uneven { d.now.even ≡ false }
    ensures { IfOk result (AreStepsIn d.now row) }
{
    let before = with_even(alloc, d, true)?;
    let into = with_member(alloc, d, row)?;
    Ok(StepsIn {
        before: Some(before),
        into,
    })
}

// By one step.
fn at_once(alloc: Global, d: &Descriptor, row: PvRow) -> Result<StepsIn, Memory>
    requires valid { IsValid d.now }
    requires may { MayJoin d.now row }
    requires two { length d.now.pvs ≡ 2 → d.now.even ≡ true }
    ensures { IfOk result (AreStepsIn d.now row) }
{
    let into = with_member(alloc, d, row)?;
    Ok(StepsIn { before: None, into })
}
