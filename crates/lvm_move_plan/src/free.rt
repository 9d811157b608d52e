//! The free partitions of a member.
ghost use Rattle.std.specs.Prelude.{◌≡◌, IfOk};
ghost use Rattle.std.specs.List.{list_any};
ghost use Rattle.std.specs.Option.{option_copied};
ghost use Rattle.lvm_num.specs.declared.descriptor.LvRow.{LvRow};
ghost use Rattle.lvm_num.specs.Descriptor.{member_of, partitions_used};
ghost use Rattle.lvm_map.specs.FirstFit.{free_of, is_among};
ghost use Rattle.lvm_move_plan.specs.Planned.{free_on, lowest_free};

use lvm_num::{Descriptor, LvRow, Memory, Pp, PvRow};
use std::alloc::Global;

/// The partitions of a member, a spare too, that no volume has, by their numbers.
///
/// # Errors
///
/// `Memory` where the memory for them is wanting.
pub fn free_on(alloc: Global, d: &Descriptor, disk: u16) -> Result<Vec<Pp>, Memory>
    ensures { IfOk result (λ free. free.items ≡ free_on d.now disk) }
{
    match member_of(d, disk) {
        None => Ok(Vec::new(alloc)),
        Some(row) => free_of(alloc, d, *row),
    }
}

/// The lowest partition of a member that no volume has, where there is one.
pub fn lowest_free(d: &Descriptor, row: PvRow) -> Option<Pp>
    ensures { result ≡ lowest_free (partitions_used d.now) row }
{
    for k in 0..row.pps {
        let pp = Pp {
            disk: row.disk,
            pp: k,
        };
        if !is_used(d, pp) {
            return Some(pp);
        }
    }
    None
}

fn member_of(d: &Descriptor, disk: u16) -> Option<&PvRow>
    ensures { option_copied result ≡ member_of d.now disk }
{
    d.pvs.as_slice().iter().find(|row| row.disk == disk)
}

fn free_of(alloc: Global, d: &Descriptor, row: PvRow) -> Result<Vec<Pp>, Memory>
    ensures { IfOk result (λ free. free.items ≡ free_of (partitions_used d.now) row) }
{
    let mut free = Vec::new(alloc);
    for k in 0..row.pps {
        let pp = Pp {
            disk: row.disk,
            pp: k,
        };
        if !is_used(d, pp) {
            free.push(pp)?;
        }
    }
    Ok(free)
}

// Whether a volume has the partition.
fn is_used(d: &Descriptor, pp: Pp) -> bool
    ensures { result ≡ is_among (partitions_used d.now) pp }
{
    is_used_in(d.lvs.as_slice(), pp)
}

fn is_used_in(rows: &[LvRow], pp: Pp) -> bool
    ensures { result ≡ list_any (λ (row : LvRow). is_among row.map pp) rows.now }
{
    rows.iter().any(|row| is_among(row.map.as_slice(), pp))
}

fn is_among(pps: &[Pp], pp: Pp) -> bool
    ensures { result ≡ is_among pps.now pp }
{
    pps.iter().any(|p| p.disk == pp.disk && p.pp == pp.pp)
}
