//! A copy on another partition.
ghost use Rattle.std.specs.Prelude.{◌≡◌, ◌<◌, ◌≤◌, length, All, IfOk};
ghost use Rattle.lvm_num.specs.declared.descriptor.LvRow.{LvRow};
ghost use Rattle.lvm_moved.specs.Moved.{moved_descriptor, moved_row, place_in_map};

use lvm_num::{Descriptor, LvRow, Memory, Pp, Rows, clone_volume, with_volumes};
use std::alloc::Global;

// A volume, where the copy is one of the volume of this number.
fn moved_row(
    alloc: Global,
    row: &LvRow,
    lv: u16,
    lp: u32,
    number: u8,
    to: Pp,
) -> Result<LvRow, Memory>
    requires some { 1 ≤ number }
    requires inside { row.now.number ≡ lv → place_in_map row.now lp number < length row.now.map }
    ensures { IfOk result (λ next. next ≡ moved_row lv lp number to row.now) }
{
    let mut next = clone_volume(alloc, row)?;
    if row.number == lv {
        let place = lp as usize * usize::from(row.copies) + usize::from(number - 1);
        next.map.set(place, to);
    }
    Ok(next)
}

/// The group in which a copy, from 1, of a logical partition, from 0, of a volume stands on this partition.
///
/// # Errors
///
/// `Memory` where the memory for it is wanting.
pub fn moved_descriptor(
    alloc: Global,
    d: &Descriptor,
    lv: u16,
    lp: u32,
    number: u8,
    to: Pp,
) -> Result<Descriptor, Memory>
    requires some { 1 ≤ number }
    requires inside { All (λ (row : LvRow). row.number ≡ lv → place_in_map row lp number < length row.map) d.now.lvs }
    ensures { IfOk result (λ next. next ≡ moved_descriptor d.now lv lp number to) }
{
    let mut lvs = Vec::new(alloc);
    for row in d.lvs.as_slice() {
        lvs.push(moved_row(alloc, row, lv, lp, number, to)?)?;
    }
    with_volumes(alloc, d, Rows::new(lvs))
}
