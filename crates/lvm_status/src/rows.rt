//! Rows that say what a status says of their disks.
ghost use Rattle.std.specs.Prelude.{◌≡◌, ◌==◌, filter, find, map, IfOk};
ghost use Rattle.std.specs.Option.{option_copied};
ghost use Rattle.lvm_num.specs.Descriptor.{is_member};
ghost use Rattle.lvm_status.specs.Rerowed.{disks_in_order, row_for, row_from};

use lvm_num::{DISKS, Descriptor, Memory, Rows, Status, StatusRow, has_member};
use std::alloc::Global;

// A row for each member of a group, by rising disks.
pub fn rows_for(alloc: Global, d: &Descriptor, said: &Status) -> Result<Rows<StatusRow>, Memory>
    ensures { IfOk result (λ rows. rows ≡ map (row_for said.now) (filter (is_member d.now) disks_in_order)) }
{
    let mut rows = Vec::new(alloc);
    for disk in 0..DISKS {
        if has_member(d.pvs.as_slice(), disk) {
            let row = row_for(said, disk);
            rows.push(row)?;
        }
    }
    Ok(Rows::new(rows))
}

// Each row becomes what is said of its disk.
pub fn become_rows(rows: &mut Rows<StatusRow>, said: &Status)
    ensures { rows.new ≡ map (row_from said.now) rows.old }
{
    for place in 0..rows.len() {
        let disk = rows.as_slice()[place].disk;
        let row = row_for(said, disk);
        rows.set(place, row);
    }
}

// The row of a disk, in which nothing is missing or stale where it has none.
fn row_for(said: &Status, disk: u16) -> StatusRow
    ensures { result ≡ row_for said.now disk }
{
    match row_among(said.rows.as_slice(), disk) {
        Some(row) => *row,
        None => StatusRow {
            disk,
            missing: false,
            stale: [0; 127],
        },
    }
}

fn row_among(rows: &[StatusRow], disk: u16) -> Option<&StatusRow>
    ensures { option_copied result ≡ find (λ (row : StatusRow). row.disk == disk) rows.now }
{
    rows.iter().find(|row| row.disk == disk)
}
