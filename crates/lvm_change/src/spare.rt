//! The next descriptor of a group of which a member comes to be a spare, or to be none any more.
ghost use Rattle.std.specs.Prelude.{◌≡◌, IfOk, map};
ghost use Rattle.lvm_num.specs.Descriptor.{IsValid};
ghost use Rattle.lvm_change_laws.specs.Spares.{DiffersInSpares};
ghost use Rattle.lvm_change.specs.Spare.{marked, with_spare};

use lvm_num::{Descriptor, Memory, PvRow, Rows, clone_descriptor};
use std::alloc::Global;

/// The group in which the member on this disk is a spare, or none.
pub fn with_spare(alloc: Global, d: &Descriptor, disk: u16, on: bool) -> Result<Descriptor, Memory>
    requires { IsValid d.now }
    ensures next { IfOk result (λ next. next ≡ with_spare disk on d.now) }
    ensures valid { IfOk result IsValid }
    ensures differs { IfOk result (DiffersInSpares d.now) }
{
    let pvs = marked_rows(alloc, d.pvs.as_slice(), disk, on)?;
    let mut next = clone_descriptor(alloc, d)?;
    next.pvs = Rows::new(pvs);
    Ok(next)
}

// The members, of which the one on this disk is a spare, or none.
fn marked_rows(alloc: Global, rows: &[PvRow], disk: u16, on: bool) -> Result<Vec<PvRow>, Memory>
    ensures { IfOk result (λ pvs. pvs.items ≡ map (marked disk on) rows.now) }
{
    let mut pvs = Vec::new(alloc);
    for row in rows {
        pvs.push(marked(*row, disk, on))?;
    }
    Ok(pvs)
}

fn marked(row: PvRow, disk: u16, on: bool) -> PvRow
    ensures { result ≡ marked disk on row }
{
    if row.disk == disk {
        PvRow { spare: on, ..row }
    } else {
        row
    }
}
