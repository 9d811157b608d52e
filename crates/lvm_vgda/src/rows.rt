//! The rows of members and volumes.
ghost use Rattle.std.specs.Prelude.{◌≡◌, true, ◌==◌, ◌&&◌, not, nat_le, nat_lt, []};
ghost use Rattle.std.specs.List.{list_all, list_any};
ghost use Rattle.std.specs.Int.{w16, w32};
ghost use Rattle.lvm_num.specs.declared.descriptor.PvRow.{PvRow};
ghost use Rattle.lvm_num.specs.declared.descriptor.LvRow.{LvRow};
ghost use Rattle.lvm_num.specs.Descriptor.{most_volumes};
ghost use Rattle.lvm_num.specs.DescriptorBytes.{mode_named, policy_named, member_at, members_at, volumes_at};
ghost use Rattle.lvm_num.specs.Reading.{number_at};
ghost use Rattle.lvm_fields.specs.Reading.{Gives, rest_of};
ghost use Rattle.lvm_vgda.specs.Parts.{number_and_copies_at, mode_and_policy_at, volume_by_parts};

use crate::head::{most_volumes, name_at};
use lvm_fields::{
    Fault, Unread, behind, u8_from_1, u8_up_to, u16_at, u16_from_1, u32_at, zeros_at,
};
use lvm_num::{LvRow, Mode, Policy, PvRow, Rows, has_member};
use std::alloc::Global;

/// So many rows of members.
pub fn members_at(alloc: Global, count: u16, unread: Unread) -> Result<(Vec<PvRow>, Unread), Fault>
    ensures { Gives (λ x. (x.0.items, rest_of x.1)) result (members_at count [] (rest_of unread.entry)) }
{
    let mut rows = Vec::new(alloc);
    let mut rest = unread;
    for _ in 0..count {
        let (row, after) = member_at(&rows, rest)?;
        rows.push(row)?;
        rest = after;
    }
    Ok((rows, rest))
}

#[tactic(auto, unfolding(lvm_num::specs::DescriptorBytes::member_at))]
fn member_at<'a>(earlier: &[PvRow], unread: Unread<'a>) -> Result<(PvRow, Unread<'a>), Fault>
    ensures { Gives (λ x. (x.0, rest_of x.1)) result (member_at earlier.now (rest_of unread.entry)) }
{
    let (disk, unread) = disk_at(earlier, unread)?;
    let (pps, unread) = u16_from_1(1016, unread)?;
    let (spare, unread) = u8_up_to(1, unread)?;
    let unread = zeros_at(3, unread)?;
    let spare = spare == 1;
    Ok((PvRow { disk, pps, spare }, unread))
}

// A disk of the shelf on which no earlier member is.
fn disk_at<'a>(earlier: &[PvRow], unread: Unread<'a>) -> Result<(u16, Unread<'a>), Fault>
    ensures { Gives (λ x. (x.0, rest_of x.1)) result (number_at w16 (λ n. nat_lt n 128 && not (list_any (λ (row : PvRow). row.disk == n) earlier.now)) (rest_of unread.entry)) }
{
    let read = u16_at(unread);
    if let Ok((disk, _)) = &read
        && (*disk >= 128 || has_member(earlier, *disk))
    {
        return Err(Fault::At(unread.place));
    }
    read
}

/// So many rows of volumes, with no partitions yet.
pub fn volumes_at(
    alloc: Global,
    big: bool,
    count: u16,
    unread: Unread,
) -> Result<(Vec<LvRow>, Unread), Fault>
    ensures { Gives (λ x. (x.0.items, rest_of x.1)) result (volumes_at big count [] (rest_of unread.entry)) }
{
    let mut rows = Vec::new(alloc);
    let mut rest = unread;
    for _ in 0..count {
        let (row, after) = volume_at(alloc, big, &rows, rest)?;
        rows.push(row)?;
        rest = after;
    }
    Ok((rows, rest))
}

#[tactic(auto, unfolding(crate::specs::Parts::volume_by_parts))]
fn volume_at<'a>(
    alloc: Global,
    big: bool,
    earlier: &[LvRow],
    unread: Unread<'a>,
) -> Result<(LvRow, Unread<'a>), Fault>
    ensures { Gives (λ x. (x.0, rest_of x.1)) result (volume_by_parts big earlier.now (rest_of unread.entry)) }
{
    let ((number, copies), unread) = number_and_copies_at(big, earlier, unread)?;
    let ((mode, policy), unread) = mode_and_policy_at(unread)?;
    let (lps, unread) = lps_at(unread)?;
    let name = name_at(earlier, unread)?;
    let unread = behind(16, unread);
    let unread = zeros_at(4, unread)?;
    let row = LvRow {
        number,
        name,
        copies,
        mode,
        policy,
        lps,
        map: Rows::empty(alloc),
    };
    Ok((row, unread))
}

#[tactic(auto, unfolding(crate::specs::Parts::number_and_copies_at))]
fn number_and_copies_at<'a>(
    big: bool,
    earlier: &[LvRow],
    unread: Unread<'a>,
) -> Result<((u16, u8), Unread<'a>), Fault>
    ensures { Gives (λ x. (x.0, rest_of x.1)) result (number_and_copies_at big earlier.now (rest_of unread.entry)) }
{
    let (number, unread) = volume_number_at(big, earlier, unread)?;
    let (copies, unread) = u8_from_1(3, unread)?;
    Ok(((number, copies), unread))
}

#[tactic(auto, unfolding(crate::specs::Parts::mode_and_policy_at))]
fn mode_and_policy_at(unread: Unread) -> Result<((Mode, Policy), Unread), Fault>
    ensures { Gives (λ x. (x.0, rest_of x.1)) result (mode_and_policy_at (rest_of unread.entry)) }
{
    let (mode, unread) = u8_up_to(2, unread)?;
    let (policy, unread) = u8_up_to(3, unread)?;
    let unread = zeros_at(3, unread)?;
    Ok(((mode_named(mode), policy_named(policy)), unread))
}

// A number above those of all earlier volumes.
fn volume_number_at<'a>(
    big: bool,
    earlier: &[LvRow],
    unread: Unread<'a>,
) -> Result<(u16, Unread<'a>), Fault>
    ensures { Gives (λ x. (x.0, rest_of x.1)) result (number_at w16 (λ n. nat_le 1 n && nat_le n (most_volumes big) && list_all (λ (row : LvRow). nat_lt row.number n) earlier.now) (rest_of unread.entry)) }
{
    let read = u16_at(unread);
    if let Ok((number, _)) = &read
        && (*number < 1 || *number > most_volumes(big) || !is_above(earlier, *number))
    {
        return Err(Fault::At(unread.place));
    }
    read
}

fn is_above(rows: &[LvRow], number: u16) -> bool
    ensures { result ≡ list_all (λ (row : LvRow). nat_lt row.number number) rows.now }
{
    for row in rows {
        if row.number >= number {
            return false;
        }
    }
    true
}

fn lps_at(unread: Unread) -> Result<(u32, Unread), Fault>
    ensures { Gives (λ x. (x.0, rest_of x.1)) result (number_at w32 (λ n. nat_le 1 n) (rest_of unread.entry)) }
{
    let read = u32_at(unread);
    if let Ok((0, _)) = &read {
        return Err(Fault::At(unread.place));
    }
    read
}

fn mode_named(code: u8) -> Mode
    ensures { result ≡ mode_named code }
{
    match code {
        0 => Mode::Off,
        1 => Mode::Active,
        _ => Mode::Passive,
    }
}

fn policy_named(code: u8) -> Policy
    ensures { result ≡ policy_named code }
{
    match code {
        0 => Policy::Parallel,
        1 => Policy::Sequential,
        2 => Policy::ParallelWrite,
        _ => Policy::RoundRobin,
    }
}
