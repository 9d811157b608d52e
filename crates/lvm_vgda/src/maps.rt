//! The partitions of volumes.
ghost use Rattle.std.specs.Prelude.{◌≡◌, List, ◌==◌, ◌&&◌, ◌++◌, [], ◌≤◌, ◌<◌, ◌*◌, not, nat_lt, All, IfOk, IsTrue};
ghost use Rattle.std.specs.List.{list_any};
ghost use Rattle.std.specs.Int.{w16};
ghost use Rattle.lvm_num.specs.declared.place.Pp.{Pp};
ghost use Rattle.lvm_num.specs.declared.descriptor.PvRow.{PvRow};
ghost use Rattle.lvm_num.specs.declared.descriptor.LvRow.{LvRow};
ghost use Rattle.lvm_num.specs.Descriptor.{IsMember};
ghost use Rattle.lvm_num.specs.DescriptorBytes.{unfinished, partition_at, partitions_at, maps_at};
ghost use Rattle.lvm_num.specs.Reading.{number_at};
ghost use Rattle.lvm_vgda.specs.passed.Fields.{Gives, rest_of};
ghost use Rattle.lvm_vgda.specs.Used.{Uses, is_free, free_at};

use crate::below::{Fault, Unread, u16_at};
use crate::used::UsedPps;
use lvm_num::{LvRow, Pp, PvRow, Rows, has_member, has_partition_on};
use std::alloc::Global;

/// The rows with the partitions of each.
pub fn maps_at<'a>(
    alloc: Global,
    members: &[PvRow],
    rows: Vec<LvRow>,
    unread: Unread<'a>,
) -> Result<(Vec<LvRow>, Unread<'a>), Fault>
    requires members { All IsMember members.now }
    requires copies { All (λ (row : LvRow). 1 ≤ row.copies) rows.items }
    ensures { Gives (λ x. (x.0.items, rest_of x.1)) result (maps_at members.now [] rows.items (rest_of unread.entry)) }
{
    let mut rows = rows;
    let mut rest = unread;
    let mut used = UsedPps::none();
    for k in 0..rows.len() {
        let row = &rows[k];
        let copies = usize::from(row.copies);
        let count = u64::from(row.lps) * u64::from(row.copies);
        let (map, after) = partitions_at(alloc, members, &mut used, copies, count, rest)?;
        rows[k].map = Rows::new(map);
        rest = after;
    }
    Ok((rows, rest))
}

// So many partitions of a volume, which are used then.
fn partitions_at<'a>(
    alloc: Global,
    members: &[PvRow],
    used: &mut UsedPps,
    copies: usize,
    count: u64,
    unread: Unread<'a>,
) -> Result<(Vec<Pp>, Unread<'a>), Fault>
    requires members { All IsMember members.now }
    requires copies { 1 ≤ copies }
    ensures read { (pps : List Pp) → Uses used.old pps → Gives (λ x. (x.0.items, rest_of x.1)) result (partitions_at members.now pps copies count [] (rest_of unread.entry)) }
    ensures used { (pps : List Pp) → Uses used.old pps → IfOk result (λ x. Uses used.new (pps ++ x.0.items)) }
{
    let mut own = Vec::new(alloc);
    let mut rest = unread;
    for _ in 0..count {
        let (pp, after) = partition_at(members, used, copies, &own, rest)?;
        used.put(pp);
        own.push(pp)?;
        rest = after;
    }
    Ok((own, rest))
}

// A partition of a member that isn't used yet, on another disk than the copies before it.
fn partition_at<'a>(
    members: &[PvRow],
    used: &UsedPps,
    copies: usize,
    own: &[Pp],
    unread: Unread<'a>,
) -> Result<(Pp, Unread<'a>), Fault>
    requires members { All IsMember members.now }
    requires copies { 1 ≤ copies }
    ensures read { (pps : List Pp) → Uses used.now (pps ++ own.now) → Gives (λ x. (x.0, rest_of x.1)) result (partition_at members.now pps copies own.now (rest_of unread.entry)) }
    ensures disk { IfOk result (λ x. x.0.disk < 128) }
    ensures partition { IfOk result (λ x. x.0.pp < 1016) }
{
    let (disk, unread) = copy_disk_at(members, unfinished(copies, own), unread)?;
    free_at(members, used, disk, unread)
}

// A partition that the member on the disk has, and that isn't used yet.
fn free_at<'a>(
    members: &[PvRow],
    used: &UsedPps,
    disk: u16,
    unread: Unread<'a>,
) -> Result<(Pp, Unread<'a>), Fault>
    requires { All IsMember members.now }
    ensures read { (pps : List Pp) → Uses used.now pps → Gives (λ x. (x.0, rest_of x.1)) result (free_at members.now pps disk (rest_of unread.entry)) }
    ensures disk { IfOk result (λ x. x.0.disk < 128) }
    ensures partition { IfOk result (λ x. x.0.pp < 1016) }
{
    let (pp, after) = u16_at(unread)?;
    let pp = Pp { disk, pp };
    if !is_free(members, used, pp) {
        return Err(Fault::At(unread.place));
    }
    Ok((pp, after))
}

fn is_free(members: &[PvRow], used: &UsedPps, pp: Pp) -> bool
    requires { All IsMember members.now }
    ensures free { (pps : List Pp) → Uses used.now pps → result ≡ is_free members.now pps pp.disk pp.pp }
    ensures disk { IsTrue result → pp.disk < 128 }
    ensures partition { IsTrue result → pp.pp < 1016 }
{
    has_partition(members, pp) && !used.has(pp)
}

// The copies of the last logical partition that isn't whole yet.
fn unfinished(copies: usize, own: &[Pp]) -> &[Pp]
    requires { 1 ≤ copies }
    ensures { result.now ≡ unfinished copies own.now }
{
    &own[own.len() / copies * copies..]
}

// A member's disk that none of these copies is on.
fn copy_disk_at<'a>(
    members: &[PvRow],
    begun: &[Pp],
    unread: Unread<'a>,
) -> Result<(u16, Unread<'a>), Fault>
    ensures { Gives (λ x. (x.0, rest_of x.1)) result (number_at w16 (λ n. list_any (λ (row : PvRow). row.disk == n) members.now && not (list_any (λ (p : Pp). p.disk == n) begun.now)) (rest_of unread.entry)) }
{
    let read = u16_at(unread);
    if let Ok((disk, _)) = &read
        && (!has_member(members, *disk) || has_partition_on(begun, *disk))
    {
        return Err(Fault::At(unread.place));
    }
    read
}

fn has_partition(members: &[PvRow], pp: Pp) -> bool
    ensures { result ≡ list_any (λ (row : PvRow). row.disk == pp.disk && nat_lt pp.pp row.pps) members.now }
{
    members
        .iter()
        .any(|row| row.disk == pp.disk && pp.pp < row.pps)
}
