//! Reading a status, field by field.
ghost use Rattle.std.specs.Prelude.{◌≡◌, true, ◌≤◌, ◌==◌, ◌&&◌, ◌||◌, nat_le, nat_lt, if◌then◌else◌, [], IfOk};
ghost use Rattle.std.specs.List.{list_all};
ghost use Rattle.std.specs.Int.{w16};
ghost use Rattle.lvm_num.specs.declared.status.StatusRow.{StatusRow as status_row};
ghost use Rattle.lvm_num.specs.declared.status.Status.{Status as status};
ghost use Rattle.lvm_num.specs.Descriptor.{most_members};
ghost use Rattle.lvm_num.specs.Reading.{bytes_at, number_at};
ghost use Rattle.lvm_num.specs.StatusBytes.{IsStatus, status_version_at, rows_and_size_at, status_rows_at, numbers_at, dirty_at, status_of};
ghost use Rattle.lvm_fields.specs.Reading.{Gives, rest_of};
ghost use Rattle.lvm_vgsa.specs.Parts.{head_at, status_by_parts, disk_and_missing_at, row_by_parts};

use lvm_fields::{
    Fault, Unread, all, bytes_at, u8_up_to, u16_at, u16_from_1, u64_nonzero, zeros_at,
};
use lvm_num::{DISKS, Rows, Status, StatusRow, VolumeNumbers};
use std::alloc::Global;

const MOST_VOLUMES: u16 = 511;

/// The status that the bytes spell, all of them. Other bytes than those that `encode` writes of a valid
/// status are refused, with the place of the first fault.
pub fn decode(alloc: Global, bytes: &[u8]) -> Result<Status, Fault>
    ensures spelled { IfOk result (IsStatus bytes.now) }
    ensures only { (s : status) → IsStatus bytes.now s → Gives (λ x. x) result (Ok s) }
    ensures exact { Gives (λ x. x) result (status_of bytes.now) }
{
    status_at(alloc, bytes)
}

#[tactic(auto, unfolding(crate::specs::Parts::status_by_parts))]
fn status_at(alloc: Global, bytes: &[u8]) -> Result<Status, Fault>
    ensures { Gives (λ x. x) result (status_by_parts bytes.now) }
{
    let ((version, id, count, big), unread) = head_at(bytes)?;
    let (rows, unread) = rows_at(alloc, count, unread)?;
    let (dirty, unread) = dirty_at(alloc, version, unread)?;
    if !unread.bytes.is_empty() {
        return Err(Fault::At(unread.place));
    }
    Ok(Status {
        id,
        big,
        dirty,
        rows: Rows::new(rows),
    })
}

// The version, the group's id, how many rows follow, and whether the group is big.
#[tactic(auto, unfolding(crate::specs::Parts::head_at))]
fn head_at(bytes: &[u8]) -> Result<((u8, u64, u16, bool), Unread<'_>), Fault>
    ensures { Gives (λ x. (x.0, rest_of x.1)) result (head_at (0, bytes.now)) }
{
    let (version, unread) = version_at(all(bytes))?;
    let (id, unread) = u64_nonzero(unread)?;
    let ((count, big), unread) = rows_and_size_at(version, unread)?;
    Ok(((version, id, count, big), unread))
}

#[tactic(auto, unfolding(lvm_num::specs::StatusBytes::status_version_at))]
fn version_at(unread: Unread) -> Result<(u8, Unread), Fault>
    ensures { Gives (λ x. (x.0, rest_of x.1)) result (status_version_at (rest_of unread.entry)) }
{
    let (magic, after) = bytes_at(4, unread)?;
    if magic == b"VGS1".as_slice() {
        Ok((1, after))
    } else if magic == b"VGS2".as_slice() {
        Ok((2, after))
    } else if magic == b"VGS3".as_slice() {
        Ok((3, after))
    } else {
        Err(Fault::At(unread.place))
    }
}

// The most rows of a status of the version.
fn most_rows(version: u8) -> u16
    ensures { result ≡ most_members (nat_le 2 version) }
{
    if version >= 2 { 128 } else { 32 }
}

// What tells in version 3 whether the group is big: 0 in other versions.
fn size_at(version: u8, count: u16, unread: Unread) -> Result<(u16, Unread), Fault>
    ensures { Gives (λ x. (x.0, rest_of x.1)) result (number_at w16 (λ n. if version == 3 then nat_le n 1 && (n == 1 || nat_le count 32) else n == 0) (rest_of unread.entry)) }
{
    let read = u16_at(unread);
    if let Ok((size, _)) = &read
        && !is_size(version, count, *size)
    {
        return Err(Fault::At(unread.place));
    }
    read
}

// Whether a status of the version with so many rows has this where version 3 tells whether the group is big.
fn is_size(version: u8, count: u16, size: u16) -> bool
    ensures { result ≡ (if version == 3 then nat_le size 1 && (size == 1 || nat_le count 32) else size == 0) }
{
    if version == 3 {
        size == 1 || size == 0 && count <= 32
    } else {
        size == 0
    }
}

// How many rows follow, and whether the group is big.
#[tactic(auto, unfolding(lvm_num::specs::StatusBytes::rows_and_size_at))]
fn rows_and_size_at(version: u8, unread: Unread) -> Result<((u16, bool), Unread), Fault>
    ensures { Gives (λ x. (x.0, rest_of x.1)) result (rows_and_size_at version (rest_of unread.entry)) }
{
    let (count, unread) = u16_from_1(most_rows(version), unread)?;
    let (size, unread) = size_at(version, count, unread)?;
    Ok(((count, version == 2 || size == 1), unread))
}

// The disk of a row that follows the earlier ones.
fn disk_at<'a>(earlier: &[StatusRow], unread: Unread<'a>) -> Result<(u16, Unread<'a>), Fault>
    ensures { Gives (λ x. (x.0, rest_of x.1)) result (number_at w16 (λ n. nat_lt n 128 && list_all (λ (row : status_row). nat_lt row.disk n) earlier.now) (rest_of unread.entry)) }
{
    let read = u16_at(unread);
    if let Ok((disk, _)) = &read
        && (*disk >= DISKS || !is_behind(*disk, earlier))
    {
        return Err(Fault::At(unread.place));
    }
    read
}

// Whether a disk comes after those of the rows.
fn is_behind(disk: u16, earlier: &[StatusRow]) -> bool
    ensures { result ≡ list_all (λ (row : status_row). nat_lt row.disk disk) earlier.now }
{
    for row in earlier {
        if row.disk >= disk {
            return false;
        }
    }
    true
}

fn marks_at(unread: Unread) -> Result<([u8; 127], Unread), Fault>
    ensures { Gives (λ x. (x.0, rest_of x.1)) result (bytes_at 127 (λ bytes. true) (rest_of unread.entry)) }
{
    let (bytes, after) = bytes_at(127, unread)?;
    let mut marks = [0; 127];
    marks.copy_from_slice(bytes);
    Ok((marks, after))
}

#[tactic(auto, unfolding(crate::specs::Parts::row_by_parts))]
fn row_at<'a>(earlier: &[StatusRow], unread: Unread<'a>) -> Result<(StatusRow, Unread<'a>), Fault>
    ensures { Gives (λ x. (x.0, rest_of x.1)) result (row_by_parts earlier.now (rest_of unread.entry)) }
{
    let ((disk, missing), unread) = disk_and_missing_at(earlier, unread)?;
    let (stale, unread) = marks_at(unread)?;
    let unread = zeros_at(1, unread)?;
    Ok((
        StatusRow {
            disk,
            missing,
            stale,
        },
        unread,
    ))
}

// The disk of a row that follows the earlier ones, and whether it is missing.
#[tactic(auto, unfolding(crate::specs::Parts::disk_and_missing_at))]
fn disk_and_missing_at<'a>(
    earlier: &[StatusRow],
    unread: Unread<'a>,
) -> Result<((u16, bool), Unread<'a>), Fault>
    ensures { Gives (λ x. (x.0, rest_of x.1)) result (disk_and_missing_at earlier.now (rest_of unread.entry)) }
{
    let (disk, unread) = disk_at(earlier, unread)?;
    let (missing, unread) = u8_up_to(1, unread)?;
    let unread = zeros_at(1, unread)?;
    Ok(((disk, missing == 1), unread))
}

fn rows_at(alloc: Global, count: u16, unread: Unread) -> Result<(Vec<StatusRow>, Unread), Fault>
    ensures { Gives (λ x. (x.0.items, rest_of x.1)) result (status_rows_at count [] (rest_of unread.entry)) }
{
    let mut rows = Vec::with_capacity(alloc, usize::from(count))?;
    let mut rest = unread;
    for _ in 0..count {
        let (row, after) = row_at(&rows, rest)?;
        rows.push(row)?;
        rest = after;
    }
    Ok((rows, rest))
}

// The number of a dirty volume that follows the earlier ones.
fn number_at<'a>(earlier: &[u16], unread: Unread<'a>) -> Result<(u16, Unread<'a>), Fault>
    ensures { Gives (λ x. (x.0, rest_of x.1)) result (number_at w16 (λ n. nat_le 1 n && nat_le n 511 && list_all (λ m. nat_lt m n) earlier.now) (rest_of unread.entry)) }
{
    let read = u16_at(unread);
    if let Ok((number, _)) = &read
        && (*number == 0 || *number > MOST_VOLUMES || !is_above(*number, earlier))
    {
        return Err(Fault::At(unread.place));
    }
    read
}

// Whether a number comes after the others.
fn is_above(number: u16, earlier: &[u16]) -> bool
    ensures { result ≡ list_all (λ m. nat_lt m number) earlier.now }
{
    for other in earlier {
        if *other >= number {
            return false;
        }
    }
    true
}

fn numbers_at(alloc: Global, count: u16, unread: Unread) -> Result<(VolumeNumbers, Unread), Fault>
    requires { count ≤ 511 }
    ensures { Gives (λ x. (x.0, rest_of x.1)) result (numbers_at count [] (rest_of unread.entry)) }
{
    let mut numbers = VolumeNumbers::empty(alloc)?;
    let mut rest = unread;
    for _ in 0..count {
        let (number, after) = number_at(numbers.as_slice(), rest)?;
        numbers.insert(numbers.len(), number);
        rest = after;
    }
    Ok((numbers, rest))
}

// The dirty volumes, which only version 3 has.
#[tactic(auto, unfolding(lvm_num::specs::StatusBytes::dirty_at))]
fn dirty_at(alloc: Global, version: u8, unread: Unread) -> Result<(VolumeNumbers, Unread), Fault>
    ensures { Gives (λ x. (x.0, rest_of x.1)) result (dirty_at version (rest_of unread.entry)) }
{
    if version != 3 {
        let none = VolumeNumbers::empty(alloc)?;
        return Ok((none, unread));
    }
    let (count, unread) = u16_from_1(MOST_VOLUMES, unread)?;
    numbers_at(alloc, count, unread)
}
