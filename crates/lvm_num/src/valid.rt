//! The rules that the rows of a descriptor and of a status keep.
ghost use Rattle.std.specs.Prelude.{◌≡◌, ◌≢◌, ℕ, false, ◌≤◌, ◌<◌, ◌==◌, ◌||◌, ◌↔◌, IsTrue, IsSome, IfSome, Any, All, AllPairs};
ghost use Rattle.std.specs.List.{list_any};
ghost use Rattle.lvm_num.specs.declared.place.Pp.{Pp};
ghost use Rattle.lvm_num.specs.declared.descriptor.LvRow.{LvRow};
ghost use Rattle.lvm_num.specs.Bits.{has_bit};
ghost use Rattle.lvm_num.specs.Descriptor.{is_size, IsVolume, AreMembers, AreVolumes, IsLaidOut};
ghost use Rattle.lvm_num.specs.Status.{IsStatusRow, AreStatusRows, AreDirty};
ghost use Rattle.lvm_num.specs.Marks.{AreCounts, AreFree, AreCounted, spot};

use crate::bits::{has_bit, set_bit};
use crate::listed::has_partition_on;
use crate::{DISKS, LvRow, MOST_PARTITIONS, Name, PARTITION_SIZES, Pp, PvRow, StatusRow};

const PLACES: usize = DISKS as usize;

const MOST_VOLUMES: u16 = 511;

const MARKS: usize = DISKS as usize * MOST_PARTITIONS as usize / 8;

/// Whether a partition may have so many MiB.
pub fn is_size(mib: u16) -> bool
    ensures { result ≡ is_size mib }
{
    PARTITION_SIZES.contains(&mib)
}

/// How many partitions the member on each disk has, 0 for a disk that is no member; None where the
/// rows aren't members.
pub fn partition_counts(pvs: &[PvRow]) -> Option<[u16; 128]>
    ensures members { IsSome result ↔ AreMembers pvs.now }
    ensures counts { IfSome result (AreCounts pvs.now) }
    ensures most { IfSome result (All (λ count. count ≤ 1016)) }
{
    let mut counts = [0; PLACES];
    for row in pvs {
        let disk = usize::from(row.disk);
        if disk >= PLACES || row.pps == 0 || row.pps > MOST_PARTITIONS || counts[disk] != 0 {
            return None;
        }
        counts[disk] = row.pps;
    }
    Some(counts)
}

/// Whether the rows are volumes, but for their maps.
pub fn are_volumes(big: bool, lvs: &[LvRow]) -> bool
    ensures { IsTrue result ↔ AreVolumes big lvs.now }
{
    for (k, row) in lvs.iter().enumerate() {
        if !is_volume(big, row) || has_name(&lvs[..k], &row.name) {
            return false;
        }
        if k > 0 && lvs[k - 1].number >= row.number {
            return false;
        }
    }
    true
}

fn is_volume(big: bool, row: &LvRow) -> bool
    ensures { IsTrue result ↔ IsVolume big row.now }
{
    let _field = row.name.as_field();
    let most = if big { 511 } else { 255 };
    1 <= row.number && row.number <= most && 1 <= row.copies && row.copies <= 3 && 1 <= row.lps
}

fn has_name(lvs: &[LvRow], name: &Name) -> bool
    ensures { IsTrue result ↔ Any (λ (row : LvRow). row.name ≡ name.now) lvs.now }
{
    lvs.iter().any(|row| row.name == *name)
}

/// Whether the maps have partitions that are there by these counts, none of them twice.
pub fn are_maps(counts: &[u16; 128], lvs: &[LvRow]) -> bool
    requires { All (λ count. count ≤ 1016) counts.now }
    ensures { IsTrue result ↔ AreCounted counts.now lvs.now }
{
    let mut marks = no_marks();
    for row in lvs {
        if !is_laid_out(row) || !mark_all(&mut marks, counts, row.map.as_slice()) {
            return false;
        }
    }
    true
}

fn is_laid_out(row: &LvRow) -> bool
    ensures { IsTrue result ↔ IsLaidOut row.now }
{
    let copies = usize::from(row.copies);
    let lps = row.lps as usize;
    let map = row.map.as_slice();
    if map.len() != lps * copies {
        return false;
    }
    for lp in 0..lps {
        if !are_apart(&map[lp * copies..(lp + 1) * copies]) {
            return false;
        }
    }
    true
}

fn are_apart(copies: &[Pp]) -> bool
    ensures { IsTrue result ↔ AllPairs (λ (a b : Pp). a.disk ≢ b.disk) copies.now }
{
    for (k, pp) in copies.iter().enumerate() {
        if has_partition_on(&copies[..k], pp.disk) {
            return false;
        }
    }
    true
}

fn no_marks() -> [u8; 16256]
    ensures { (k : ℕ) → has_bit result k ≡ false }
{
    [0; MARKS]
}

// Marks the partitions of a map, as far as they are there and free.
fn mark_all(marks: &mut [u8; 16256], counts: &[u16; 128], map: &[Pp]) -> bool
    requires { All (λ count. count ≤ 1016) counts.now }
    ensures free { IsTrue result ↔ AreFree counts.now marks.old map.now }
    ensures marked { IsTrue result → (k : ℕ) → has_bit marks.new k ≡ (has_bit marks.old k || list_any (λ pp. k == spot pp) map.now) }
{
    for pp in map {
        if usize::from(pp.disk) >= PLACES || pp.pp >= counts[usize::from(pp.disk)] {
            return false;
        }
        let spot = spot_of(*pp);
        if has_bit(marks, spot) {
            return false;
        }
        set_bit(marks, spot);
    }
    true
}

// The number of a partition among those of all disks.
fn spot_of(pp: Pp) -> usize
    ensures { result ≡ spot pp }
{
    usize::from(MOST_PARTITIONS) * usize::from(pp.disk) + usize::from(pp.pp)
}

/// Whether the rows of a status are valid.
pub fn are_status_rows(rows: &[StatusRow]) -> bool
    ensures { IsTrue result ↔ AreStatusRows rows.now }
{
    for (k, row) in rows.iter().enumerate() {
        if !is_status_row(row) {
            return false;
        }
        if k > 0 && rows[k - 1].disk >= row.disk {
            return false;
        }
    }
    true
}

fn is_status_row(row: &StatusRow) -> bool
    ensures { IsTrue result ↔ IsStatusRow row.now }
{
    usize::from(row.disk) < PLACES
}

/// Whether the numbers are those of dirty volumes.
pub fn are_dirty(numbers: &[u16]) -> bool
    ensures { IsTrue result ↔ AreDirty numbers.now }
{
    for (k, number) in numbers.iter().enumerate() {
        if *number == 0 || *number > MOST_VOLUMES {
            return false;
        }
        if k > 0 && numbers[k - 1] >= *number {
            return false;
        }
    }
    true
}
