//! The moves by which copies leave a disk.
ghost use Rattle.std.specs.Prelude.{◌≡◌, ◌≤◌, None, length, All, IfOk, IfErr, find};
ghost use Rattle.std.specs.Option.{option_copied, option_map};
ghost use Rattle.lvm_num.specs.Descriptor.{IsLaidOut, IsValid};
ghost use Rattle.lvm_num.specs.declared.place.Pp.{Pp};
ghost use Rattle.lvm_move_plan.specs.declared.plan.PlanFault.TheVariants as fault;
ghost use Rattle.lvm_move_plan.specs.declared.standing.VolumeCopy.{VolumeCopy};
ghost use Rattle.lvm_move_plan.specs.Planned.{IsPlanFault, moves_to, plan_refusal, planned_moves, stands_beside};

use crate::free::free_on;
use crate::standing::{VolumeCopy, standing_on};
use lvm_num::{Descriptor, Memory, Pp, Rows, copies_of, has_partition_on, volume_of};
use std::alloc::Global;

/// A copy and the partition to which it is to move.
#[derive(Clone, Copy, PartialEq, Eq)]
pub struct PlannedMove {
    pub copy: VolumeCopy,
    pub to: Pp,
}

/// Why copies don't move from one disk to another, in this order.
#[derive(Clone, Copy, Debug, PartialEq, Eq)]
pub enum PlanFault {
    /// The second disk has another copy of a logical partition, from 0, that would move; the first such is carried.
    Strict { lp: u32 },
    /// The second disk has only so many free partitions, fewer than there are copies to move.
    NoRoom { free: u32 },
    /// Want of memory: a growth was refused.
    Memory,
}

impl From<Memory> for PlanFault {
    ghost from_gives = { λ _ e. e ≡ fault.Memory };

    fn from(_refused: Memory) -> PlanFault {
        PlanFault::Memory
    }
}

/// The moves by which the copies of a volume, or of all volumes, leave the first disk for the second: in the order of
/// volumes, their logical partitions and their copies, each to the lowest partition that is free then. A second disk that
/// is a spare takes them too.
///
/// # Errors
///
/// Those of `PlanFault`. Memory may be wanting whatever else stands against the moves.
pub fn plan_moves(
    alloc: Global,
    d: &Descriptor,
    lv: Option<u16>,
    from: u16,
    to: u16,
) -> Result<Rows<PlannedMove>, PlanFault>
    requires { IsValid d.now }
    ensures planned { IfOk result (λ moves. moves ≡ planned_moves d.now lv from to) }
    ensures may { IfOk result (λ moves. plan_refusal d.now lv from to ≡ None) }
    ensures few { IfOk result (λ moves. length moves ≤ 1016) }
    ensures fault { IfErr result (IsPlanFault d.now lv from to) }
{
    let copies = standing_on(alloc, d, lv, from)?;
    if let Some(lp) = first_strict(d, &copies, to) {
        return Err(PlanFault::Strict { lp });
    }
    let free = free_on(alloc, d, to)?;
    if free.len() < copies.len() {
        return Err(PlanFault::NoRoom {
            free: free.len() as u32,
        });
    }
    Ok(moves_to(alloc, &copies, &free)?)
}

/// Whether a copy of the logical partition of this one stands on the disk.
pub fn stands_beside(d: &Descriptor, disk: u16, copy: VolumeCopy) -> bool
    requires { All IsLaidOut d.now.lvs }
    ensures { result ≡ stands_beside d.now disk copy }
{
    match volume_of(d, copy.lv) {
        None => false,
        Some(row) if copy.lp < row.lps => has_partition_on(copies_of(row, copy.lp), disk),
        Some(_) => false,
    }
}

// The logical partition of the first of these copies that has another one on the disk.
fn first_strict(d: &Descriptor, copies: &[VolumeCopy], disk: u16) -> Option<u32>
    requires { All IsLaidOut d.now.lvs }
    ensures { result ≡ option_map (λ (c : VolumeCopy). c.lp) (find (stands_beside d.now disk) copies.now) }
{
    for copy in copies {
        if stands_beside(d, disk, *copy) {
            return Some(copy.lp);
        }
    }
    None
}

// Each copy moves to the next of these partitions.
fn moves_to(alloc: Global, copies: &[VolumeCopy], free: &[Pp]) -> Result<Rows<PlannedMove>, Memory>
    requires { length copies.now ≤ length free.now }
    ensures { IfOk result (λ moves. moves ≡ moves_to copies.now free.now) }
{
    let mut moves = Vec::new(alloc);
    for place in 0..copies.len() {
        moves.push(PlannedMove {
            copy: copies[place],
            to: free[place],
        })?;
    }
    Ok(Rows::new(moves))
}
