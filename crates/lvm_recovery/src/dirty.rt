//! Volumes that are dirty are copied whole.
ghost use Rattle.std.specs.Prelude.{◌≡◌, ◌≤◌, ◌<◌, ◌*◌, ◌^◌, ◌&&◌, filter, flat_map, All};
ghost use Rattle.lvm_num.specs.Geometry.{partition_of};
ghost use Rattle.lvm_num.specs.Modes.{is_passive};
ghost use Rattle.lvm_num.specs.Status.{calls_dirty};
ghost use Rattle.lvm_num.specs.Descriptor.{IsValid, IsLaidOut, copies_of};
ghost use Rattle.lvm_num.specs.Disks.{has};
ghost use Rattle.lvm_disk.specs.Device.{IsReady};
ghost use Rattle.lvm_map.specs.Places.{place_on};
ghost use Rattle.lvm_recovery.specs.Copying.{IsFull, MayCopy, AreApart, AllGive};
ghost use Rattle.lvm_recovery.specs.Plan.{usable_by, copies_from, copies_at, copies_whole, copies_if_dirty, copies_dirty};
ghost use Rattle.lvm_recovery.specs.Dirty.{copy_to, FindsUsable};

use crate::copying::{Recopy, copy_all};
use crate::plan::{is_usable, place_on};
use lvm_disk::Shelf;
use lvm_num::{Descriptor, DiskSet, LvRow, Mode, Pbuf, Place, Pp};
use lvm_status::StaleTable;
use lvm_transfer::Patience;
use lvm_write::Begun;

/// Makes the usable copies of each dirty volume in mode passive equal, whole, from the first of each logical
/// partition, up to the first transfer that doesn't end well. It takes no memory.
pub fn copy_dirty<S: Shelf>(
    shelf: &mut S,
    group: &Descriptor,
    table: &StaleTable,
    disks: DiskSet,
    buf: Pbuf,
    patience: &mut Patience,
) -> Begun
    requires ready { IsReady (S.device shelf.old) }
    requires full { IsFull buf }
    requires valid { IsValid group.now }
    requires ranges { All (MayCopy (S.device shelf.old).sizes) (copies_dirty group.now table.now (has disks)) }
    requires apart { AreApart (copies_dirty group.now table.now (has disks)) }
    ensures gives { AllGive (copies_dirty group.now table.now (has disks)) buf.number patience.old.left patience.new.left (S.device shelf.old) (S.device shelf.new) result }
{
    copy_rows(
        shelf,
        group.mib,
        group.lvs.as_slice(),
        table,
        disks,
        buf,
        patience,
    )
}

// Those of these rows.
fn copy_rows<S: Shelf>(
    shelf: &mut S,
    mib: u16,
    rows: &[LvRow],
    table: &StaleTable,
    disks: DiskSet,
    buf: Pbuf,
    patience: &mut Patience,
) -> Begun
    requires ready { IsReady (S.device shelf.old) }
    requires full { IsFull buf }
    requires size { mib ≤ 1024 }
    requires some_size { 1 ≤ mib }
    requires laid_out { All IsLaidOut rows.now }
    requires places { All (λ row. All (λ p. p.disk < 128) row.map) rows.now }
    requires ranges { All (MayCopy (S.device shelf.old).sizes) (flat_map (copies_if_dirty mib table.now (has disks)) rows.now) }
    requires apart { AreApart (flat_map (copies_if_dirty mib table.now (has disks)) rows.now) }
    ensures gives { AllGive (flat_map (copies_if_dirty mib table.now (has disks)) rows.now) buf.number patience.old.left patience.new.left (S.device shelf.old) (S.device shelf.new) result }
{
    let mut buf = buf;
    for row in rows {
        match copy_if_dirty(shelf, mib, row, table, disks, buf, patience) {
            Begun::Ended { buf: back } => buf = back,
            stopped => return stopped,
        }
    }
    Begun::Ended { buf }
}

// Those of a volume, where it is dirty.
fn copy_if_dirty<S: Shelf>(
    shelf: &mut S,
    mib: u16,
    row: &LvRow,
    table: &StaleTable,
    disks: DiskSet,
    buf: Pbuf,
    patience: &mut Patience,
) -> Begun
    requires ready { IsReady (S.device shelf.old) }
    requires full { IsFull buf }
    requires size { mib ≤ 1024 }
    requires some_size { 1 ≤ mib }
    requires laid_out { IsLaidOut row.now }
    requires places { All (λ p. p.disk < 128) row.now.map }
    requires ranges { All (MayCopy (S.device shelf.old).sizes) (copies_if_dirty mib table.now (has disks) row.now) }
    requires apart { AreApart (copies_if_dirty mib table.now (has disks) row.now) }
    ensures gives { AllGive (copies_if_dirty mib table.now (has disks) row.now) buf.number patience.old.left patience.new.left (S.device shelf.old) (S.device shelf.new) result }
{
    if !is_to_copy(row, table) {
        return Begun::Ended { buf };
    }
    copy_volume(shelf, mib, row, table, disks, buf, patience)
}

fn is_to_copy(row: &LvRow, table: &StaleTable) -> bool
    ensures { result ≡ (is_passive row.now.mode && calls_dirty table.now row.now.number) }
{
    row.mode == Mode::Passive && table.is_dirty(row.number)
}

// Those of all its track groups.
fn copy_volume<S: Shelf>(
    shelf: &mut S,
    mib: u16,
    row: &LvRow,
    table: &StaleTable,
    disks: DiskSet,
    buf: Pbuf,
    patience: &mut Patience,
) -> Begun
    requires ready { IsReady (S.device shelf.old) }
    requires full { IsFull buf }
    requires size { mib ≤ 1024 }
    requires some_size { 1 ≤ mib }
    requires laid_out { IsLaidOut row.now }
    requires places { All (λ p. p.disk < 128) row.now.map }
    requires ranges { All (MayCopy (S.device shelf.old).sizes) (copies_whole mib table.now (has disks) row.now) }
    requires apart { AreApart (copies_whole mib table.now (has disks) row.now) }
    ensures gives { AllGive (copies_whole mib table.now (has disks) row.now) buf.number patience.old.left patience.new.left (S.device shelf.old) (S.device shelf.new) result }
{
    let mut buf = buf;
    let groups = groups_of(mib, row.lps);
    for g in 0..groups {
        match copy_group(shelf, mib, row, g, table, disks, buf, patience) {
            Begun::Ended { buf: back } => buf = back,
            stopped => return stopped,
        }
    }
    Begun::Ended { buf }
}

// How many track groups a volume has.
#[tactic(auto, using(crate::proofs::RowsLemmas::groups_low))]
fn groups_of(mib: u16, lps: u32) -> u64
    requires size { mib ≤ 1024 }
    ensures is { result ≡ 8 * mib * lps }
    ensures low { result < 2 ^ 45 }
{
    8 * u64::from(mib) * u64::from(lps)
}

// Those of a track group.
fn copy_group<S: Shelf>(
    shelf: &mut S,
    mib: u16,
    row: &LvRow,
    g: u64,
    table: &StaleTable,
    disks: DiskSet,
    buf: Pbuf,
    patience: &mut Patience,
) -> Begun
    requires ready { IsReady (S.device shelf.old) }
    requires full { IsFull buf }
    requires size { mib ≤ 1024 }
    requires some_size { 1 ≤ mib }
    requires laid_out { IsLaidOut row.now }
    requires places { All (λ p. p.disk < 128) row.now.map }
    requires inside { partition_of mib (g * 256) < row.now.lps }
    requires low { g < 2 ^ 45 }
    requires ranges { All (MayCopy (S.device shelf.old).sizes) (copies_at mib table.now (has disks) row.now g) }
    requires apart { AreApart (copies_at mib table.now (has disks) row.now g) }
    ensures gives { AllGive (copies_at mib table.now (has disks) row.now g) buf.number patience.old.left patience.new.left (S.device shelf.old) (S.device shelf.new) result }
{
    let block = g * 256;
    let pps = pps_of(mib, row, block);
    copy_block(shelf, mib, pps, block, table, disks, buf, patience)
}

// The copies of the logical partition of a block.
fn pps_of(mib: u16, row: &LvRow, block: u64) -> &[Pp]
    requires some_size { 1 ≤ mib }
    requires laid_out { IsLaidOut row.now }
    requires inside { partition_of mib block < row.now.lps }
    ensures { result.now ≡ copies_of row.now (partition_of mib block) }
{
    pps_at(row, block / (2048 * u64::from(mib)))
}

// The copies of a logical partition.
pub fn pps_at(row: &LvRow, lp: u64) -> &[Pp]
    requires laid_out { IsLaidOut row.now }
    requires inside { lp < row.now.lps }
    ensures { result.now ≡ copies_of row.now lp }
{
    if lp < u64::from(row.lps) {
        let first = lp as usize * usize::from(row.copies);
        return &row.map.as_slice()[first..first + usize::from(row.copies)];
    }
    unreachable!()
}

// From the first usable one of these copies to the further ones.
fn copy_block<S: Shelf>(
    shelf: &mut S,
    mib: u16,
    pps: &[Pp],
    block: u64,
    table: &StaleTable,
    disks: DiskSet,
    buf: Pbuf,
    patience: &mut Patience,
) -> Begun
    requires ready { IsReady (S.device shelf.old) }
    requires full { IsFull buf }
    requires size { mib ≤ 1024 }
    requires some_size { 1 ≤ mib }
    requires places { All (λ p. p.disk < 128) pps.now }
    requires ranges { All (MayCopy (S.device shelf.old).sizes) (copies_from mib block (filter (usable_by table.now (has disks)) pps.now)) }
    requires apart { AreApart (copies_from mib block (filter (usable_by table.now (has disks)) pps.now)) }
    ensures gives { AllGive (copies_from mib block (filter (usable_by table.now (has disks)) pps.now)) buf.number patience.old.left patience.new.left (S.device shelf.old) (S.device shelf.new) result }
{
    let Some(at) = first_usable(pps, table, disks) else {
        return Begun::Ended { buf };
    };
    let from = place_on(mib, pps[at], block);
    copy_rest(
        shelf,
        mib,
        from,
        &pps[at + 1..],
        block,
        table,
        disks,
        buf,
        patience,
    )
}

// The place of the first usable one.
pub fn first_usable(pps: &[Pp], table: &StaleTable, disks: DiskSet) -> Option<usize>
    requires places { All (λ p. p.disk < 128) pps.now }
    ensures { FindsUsable (usable_by table.now (has disks)) pps.now result }
{
    for k in 0..pps.len() {
        if is_usable(pps[k], table, disks) {
            return Some(k);
        }
    }
    None
}

// To each usable one of these copies.
fn copy_rest<S: Shelf>(
    shelf: &mut S,
    mib: u16,
    from: Place,
    pps: &[Pp],
    block: u64,
    table: &StaleTable,
    disks: DiskSet,
    buf: Pbuf,
    patience: &mut Patience,
) -> Begun
    requires ready { IsReady (S.device shelf.old) }
    requires full { IsFull buf }
    requires size { mib ≤ 1024 }
    requires some_size { 1 ≤ mib }
    requires places { All (λ p. p.disk < 128) pps.now }
    requires ranges { All (MayCopy (S.device shelf.old).sizes) (flat_map (copy_to mib block table.now (has disks) from) pps.now) }
    requires apart { AreApart (flat_map (copy_to mib block table.now (has disks) from) pps.now) }
    ensures gives { AllGive (flat_map (copy_to mib block table.now (has disks) from) pps.now) buf.number patience.old.left patience.new.left (S.device shelf.old) (S.device shelf.new) result }
{
    let mut buf = buf;
    for pp in pps {
        match copy_if_usable(shelf, mib, from, *pp, block, table, disks, buf, patience) {
            Begun::Ended { buf: back } => buf = back,
            stopped => return stopped,
        }
    }
    Begun::Ended { buf }
}

// To one, where it is usable.
fn copy_if_usable<S: Shelf>(
    shelf: &mut S,
    mib: u16,
    from: Place,
    pp: Pp,
    block: u64,
    table: &StaleTable,
    disks: DiskSet,
    buf: Pbuf,
    patience: &mut Patience,
) -> Begun
    requires ready { IsReady (S.device shelf.old) }
    requires full { IsFull buf }
    requires size { mib ≤ 1024 }
    requires some_size { 1 ≤ mib }
    requires place { pp.disk < 128 }
    requires ranges { All (MayCopy (S.device shelf.old).sizes) (copy_to mib block table.now (has disks) from pp) }
    requires apart { AreApart (copy_to mib block table.now (has disks) from pp) }
    ensures gives { AllGive (copy_to mib block table.now (has disks) from pp) buf.number patience.old.left patience.new.left (S.device shelf.old) (S.device shelf.new) result }
{
    if !is_usable(pp, table, disks) {
        return Begun::Ended { buf };
    }
    let one = Recopy {
        from,
        into: place_on(mib, pp, block),
    };
    copy_all(shelf, &[one], buf, patience)
}
