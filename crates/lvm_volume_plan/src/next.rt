//! The descriptor of a group with one volume more or less.
ghost use Rattle.std.specs.Prelude.{◌≡◌, ◌+◌, ◌<◌, ◌≤◌, length, insert, IfOk};
ghost use Rattle.lvm_num.specs.declared.descriptor.LvRow.{LvRow};
ghost use Rattle.lvm_num.specs.Descriptor.{IsValid};
ghost use Rattle.lvm_volume_plan.specs.NewVolume.{IsLowestFree, IsInOrder, with_volume, without_volume};

use lvm_num::{Descriptor, LvRow, Memory, Rows, clone_volume, clone_volumes, with_volumes};
use std::alloc::Global;

/// The lowest number from 1 that no volume of the group has.
pub fn lowest_free(d: &Descriptor) -> u16
    requires { IsValid d.now }
    ensures lowest { IsLowestFree d.now result }
    ensures order { IsInOrder d.now result }
{
    let mut lowest: u16 = 1;
    for row in d.lvs.as_slice() {
        if row.number != lowest {
            return lowest;
        }
        lowest += 1;
    }
    lowest
}

/// The group with one volume more, whose number is the lowest that was free.
pub fn with_volume(alloc: Global, d: &Descriptor, row: LvRow) -> Result<Descriptor, Memory>
    requires least { 1 ≤ row.number }
    requires place { row.number ≤ length d.now.lvs + 1 }
    ensures { IfOk result (λ next. next ≡ with_volume d.now row) }
{
    let place = usize::from(row.number - 1);
    let mut lvs = clone_volumes(alloc, d.lvs.as_slice())?;
    lvs.insert(place, row)?;
    with_volumes(alloc, d, Rows::new(lvs))
}

/// The group without the volume of this number.
pub fn without_volume(alloc: Global, d: &Descriptor, lv: u16) -> Result<Descriptor, Memory>
    ensures { IfOk result (λ next. next ≡ without_volume d.now lv) }
{
    let mut lvs = Vec::new(alloc);
    for row in d.lvs.as_slice() {
        if row.number != lv {
            lvs.push(clone_volume(alloc, row)?)?;
        }
    }
    with_volumes(alloc, d, Rows::new(lvs))
}
