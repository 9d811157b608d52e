//! The descriptors by which one member leaves its group.
ghost use Rattle.std.specs.Prelude.{◌≡◌, ◌⊎◌, length, true, false, IfOk};
ghost use Rattle.lvm_num.specs.Descriptor.{IsValid};
ghost use Rattle.lvm_member_plan.specs.Descriptors.{is_first};
ghost use Rattle.lvm_member_plan.specs.Steps.{MayDepart, AreStepsOut};

use crate::descriptors::{is_first, with_even, without_members};
use lvm_num::{Descriptor, Memory};
use std::alloc::Global;

/// The descriptors by which a member leaves.
#[derive(Drop)]
pub struct StepsOut {
    /// Before it leaves, the two members become even.
    pub before: Option<Descriptor>,
    pub out: Descriptor,
    /// The two that stay are even no more.
    pub after: Option<Descriptor>,
}

/// The descriptors by which this member leaves the group. From three members the two that stay are even first; so are two of which the first leaves.
pub fn steps_out(alloc: Global, d: &Descriptor, disk: u16) -> Result<StepsOut, Memory>
    requires valid { IsValid d.now }
    requires may { MayDepart d.now disk }
    ensures { IfOk result (AreStepsOut d.now disk) }
{
    if d.pvs.len() == 3 {
        from_three(alloc, d, disk)
    } else if d.pvs.len() == 2 && !d.even && is_first(d, disk) {
        first_of_two(alloc, d, disk)
    } else {
        at_once(alloc, d, disk)
    }
}

// From three members.
fn from_three(alloc: Global, d: &Descriptor, disk: u16) -> Result<StepsOut, Memory>
    requires valid { IsValid d.now }
    requires may { MayDepart d.now disk }
    requires three { length d.now.pvs ≡ 3 }
    ensures { IfOk result (AreStepsOut d.now disk) }
{
    let out = without_members(alloc, d, &[disk], true)?;
    let after = without_members(alloc, d, &[disk], false)?;
    Ok(StepsOut {
        before: None,
        out,
        after: Some(after),
    })
}

// The first of two members that aren't even.
fn first_of_two(alloc: Global, d: &Descriptor, disk: u16) -> Result<StepsOut, Memory>
    requires valid { IsValid d.now }
    requires may { MayDepart d.now disk }
    requires two { length d.now.pvs ≡ 2 }
    ensures { IfOk result (AreStepsOut d.now disk) }
{
    let before = with_even(alloc, d, true)?;
    let out = without_members(alloc, d, &[disk], false)?;
    Ok(StepsOut {
        before: Some(before),
        out,
        after: None,
    })
}

// One that leaves by one step.
fn at_once(alloc: Global, d: &Descriptor, disk: u16) -> Result<StepsOut, Memory>
    requires valid { IsValid d.now }
    requires may { MayDepart d.now disk }
    requires three { length d.now.pvs ≡ 3 → ⊥ }
    requires two { length d.now.pvs ≡ 2 → (d.now.even ≡ true) ⊎ (is_first d.now disk ≡ false) }
    ensures { IfOk result (AreStepsOut d.now disk) }
{
    let out = without_members(alloc, d, &[disk], false)?;
    Ok(StepsOut {
        before: None,
        out,
        after: None,
    })
}
