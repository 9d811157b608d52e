//! The next status of a group that comes on.
ghost use Rattle.std.specs.Prelude.{◌≡◌, ◌≤◌, ◌&&◌, ◌==◌, ℕ, false, length, filter, find, IfOk};
ghost use Rattle.std.specs.List.{list_any};
ghost use Rattle.std.specs.Option.{option_copied};
ghost use Rattle.lvm_num.specs.declared.descriptor.LvRow.{LvRow};
ghost use Rattle.lvm_num.specs.declared.record.Stamp.{Stamp};
ghost use Rattle.lvm_num.specs.Bits.{has_bit};
ghost use Rattle.lvm_num.specs.Descriptor.{IsValid};
ghost use Rattle.lvm_num.specs.Disks.{has};
ghost use Rattle.lvm_num.specs.Status.{IsValidStatus, calls_stale};
ghost use Rattle.lvm_write.specs.Next.{IsNextStatus, is_passive};
ghost use Rattle.lvm_write.specs.Rows.{AreMemberRows};

use lvm_num::{
    DISKS, Descriptor, DiskSet, LvRow, Memory, Mode, Rows, Status, StatusRow, VolumeNumbers,
    has_member,
};
use lvm_status::{StaleTable, mark_volumes};
use std::alloc::Global;

/// The status with which a group comes on: a row for each member, missing those that don't answer, stale
/// what was and the copies on missing members of which another is fresh on one that answers, dirty the
/// passive volumes that were. Want of memory is the one refusal.
pub fn next_status(
    alloc: Global,
    group: &Descriptor,
    was: &Status,
    answering: DiskSet,
) -> Result<Status, Memory>
    requires descriptor { IsValid group.now }
    requires status { IsValidStatus was.now }
    ensures { (stamp : Stamp) → IfOk result (IsNextStatus group.now (has answering) (record { stamp = stamp; value = was.now })) }
{
    let rows = member_rows(alloc, group, was, answering)?;
    let dirty = passive_numbers(alloc, group.lvs.as_slice(), was.dirty.as_slice())?;
    let status = Status {
        id: group.id,
        big: group.big,
        dirty,
        rows: Rows::new(rows),
    };
    let mut table = StaleTable::from_status(alloc, &status)?;
    mark_volumes(&mut table, group.lvs.as_slice(), answering);
    table.status(alloc)
}

// A row for each member, by rising disks.
fn member_rows(
    alloc: Global,
    group: &Descriptor,
    was: &Status,
    answering: DiskSet,
) -> Result<Vec<StatusRow>, Memory>
    requires descriptor { IsValid group.now }
    requires status { IsValidStatus was.now }
    ensures rows { IfOk result (λ rows. AreMemberRows group.now (has answering) was.now 128 rows.items) }
    ensures fit { IfOk result (λ rows. length rows.items ≤ length group.now.pvs) }
{
    let mut rows = Vec::new(alloc);
    for disk in 0..DISKS {
        if has_member(group.pvs.as_slice(), disk) {
            let row = row_of(was, disk, !answering.has(disk));
            if rows.push(row).is_err() {
                return Err(Memory);
            }
        }
    }
    Ok(rows)
}

// The row of a disk, with the stale marks that it has in a status, none where it has no row there.
fn row_of(was: &Status, disk: u16, missing: bool) -> StatusRow
    requires status { IsValidStatus was.now }
    ensures disk { result.disk ≡ disk }
    ensures missing { result.missing ≡ missing }
    ensures size { length result.stale ≡ 127 }
    ensures stale { (k : ℕ) → has_bit result.stale k ≡ calls_stale was.now (record { disk = disk; pp = k }) }
{
    let stale = match row_in(was.rows.as_slice(), disk) {
        Some(row) => row.stale,
        None => no_marks(),
    };
    StatusRow {
        disk,
        missing,
        stale,
    }
}

fn row_in(rows: &[StatusRow], disk: u16) -> Option<&StatusRow>
    ensures { option_copied result ≡ find (λ row. row.disk == disk) rows.now }
{
    rows.iter().find(|row| row.disk == disk)
}

// No partition is stale.
fn no_marks() -> [u8; 127]
    ensures { (k : ℕ) → has_bit result k ≡ false }
{
    [0; 127]
}

// Those of the numbers that are of passive volumes.
fn passive_numbers(alloc: Global, volumes: &[LvRow], dirty: &[u16]) -> Result<VolumeNumbers, Memory>
    ensures { IfOk result (λ numbers. numbers ≡ filter (λ n. list_any (λ (row : LvRow). row.number == n && is_passive row.mode) volumes.now) dirty.now) }
{
    let mut numbers = Vec::new(alloc);
    for number in dirty {
        if is_passive(volumes, *number) && numbers.push(*number).is_err() {
            return Err(Memory);
        }
    }
    VolumeNumbers::new(alloc, numbers.as_slice())
}

// Whether a volume of this number is in mode passive.
fn is_passive(volumes: &[LvRow], number: u16) -> bool
    ensures { result ≡ list_any (λ (row : LvRow). row.number == number && is_passive row.mode) volumes.now }
{
    volumes
        .iter()
        .any(|row| row.number == number && row.mode == Mode::Passive)
}
