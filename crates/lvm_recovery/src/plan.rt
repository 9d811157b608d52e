//! Which copies make a group's usable copies equal, by what its members' notes name.
ghost use Rattle.std.specs.Prelude.{◌≡◌, ◌==◌, ◌<◌, ◌*◌, ◌++◌, ◌≤◌, find, flat_map, map, filter, IfOk, OnOk, All};
ghost use Rattle.std.specs.Option.{option_copied};
ghost use Rattle.lvm_num.specs.declared.descriptor.LvRow.{LvRow};
ghost use Rattle.lvm_num.specs.Descriptor.{IsLaidOut, IsValid};
ghost use Rattle.lvm_num.specs.Disks.{has};
ghost use Rattle.lvm_quorum.specs.Rows.{AreRows};
ghost use Rattle.lvm_quorum.specs.Surveyed.{surveyed};
ghost use Rattle.lvm_recovery.specs.Plan.{AreNamed, AreRising, group_of, usable_by, copies_from, copies_of_group, copies_named};
ghost use Rattle.lvm_map.specs.Places.{place_on};

use crate::copying::Recopy;
use lvm_num::{Descriptor, DiskSet, LvRow, Memory, Mode, NoteEntry, Place, Pp};
use lvm_quorum::Survey;
use lvm_status::StaleTable;
use std::alloc::Global;

/// A track group of a volume.
#[derive(Clone, Copy, PartialEq, Eq, PartialOrd, Ord)]
pub struct TrackGroup {
    /// The number of the volume.
    pub volume: u16,
    /// 256 blocks of it, from 0.
    pub group: u32,
}

/// The track groups that the notes of these disks name, in the order of their volumes and of their places in
/// these, each once.
pub fn named_by(alloc: Global, survey: &Survey, disks: DiskSet) -> Result<Vec<TrackGroup>, Memory>
    requires { AreRows survey.now }
    ensures named { IfOk result (λ groups. AreNamed (surveyed survey.now) (has disks) groups.items) }
    ensures rising { IfOk result (λ groups. AreRising groups.items) }
{
    let mut groups = Vec::new(alloc);
    for row in survey.rows.as_slice() {
        if disks.has(row.disk) {
            if let Some(note) = &row.note {
                push_groups(&mut groups, note.entries.as_slice())?;
            }
        }
    }
    groups.sort()?;
    groups.dedup();
    Ok(groups)
}

fn push_groups(groups: &mut Vec<TrackGroup>, entries: &[NoteEntry]) -> Result<(), Memory>
    ensures { OnOk result (groups.new.items ≡ groups.old.items ++ map group_of entries.now) }
{
    for entry in entries {
        let group = TrackGroup {
            volume: entry.lv,
            group: entry.group,
        };
        if groups.push(group).is_err() {
            return Err(Memory);
        }
    }
    Ok(())
}

/// The copies that make these track groups equal, of those that lie in volumes in mode active: each from the
/// first copy that stands on one of these disks and isn't stale to each further one.
pub fn plan_copies(
    alloc: Global,
    group: &Descriptor,
    table: &StaleTable,
    disks: DiskSet,
    named: &[TrackGroup],
) -> Result<Vec<Recopy>, Memory>
    requires { IsValid group.now }
    ensures { IfOk result (λ copies. copies.items ≡ flat_map (copies_named group.now table.now (has disks)) named.now) }
{
    let mut copies = Vec::new(alloc);
    for one in named {
        if let Some(row) = volume_in(group.lvs.as_slice(), one.volume) {
            push_named(&mut copies, group.mib, row, one.group, table, disks)?;
        }
    }
    Ok(copies)
}

fn volume_in(rows: &[LvRow], number: u16) -> Option<&LvRow>
    ensures { option_copied result ≡ find (λ (row : LvRow). row.number == number) rows.now }
{
    rows.iter().find(|row| row.number == number)
}

// Those of a track group, where it lies in the volume and this is in mode active.
fn push_named(
    copies: &mut Vec<Recopy>,
    mib: u16,
    row: &LvRow,
    group: u32,
    table: &StaleTable,
    disks: DiskSet,
) -> Result<(), Memory>
    requires laid_out { IsLaidOut row.now }
    requires size { mib ≤ 1024 }
    requires some_size { 1 ≤ mib }
    requires places { All (λ p. p.disk < 128) row.now.map }
    ensures { OnOk result (copies.new.items ≡ copies.old.items ++ copies_of_group mib table.now (has disks) row.now group) }
{
    let partition = 2048 * u64::from(mib);
    let block = 256 * u64::from(group);
    let lp = block / partition;
    if row.mode == Mode::Active && lp < u64::from(row.lps) {
        let first = lp as usize * usize::from(row.copies);
        let pps = &row.map.as_slice()[first..first + usize::from(row.copies)];
        return push_further(copies, mib, pps, block, table, disks);
    }
    Ok(())
}

// Those of a block of one logical partition.
fn push_further(
    copies: &mut Vec<Recopy>,
    mib: u16,
    pps: &[Pp],
    block: u64,
    table: &StaleTable,
    disks: DiskSet,
) -> Result<(), Memory>
    requires size { mib ≤ 1024 }
    requires some_size { 1 ≤ mib }
    requires places { All (λ p. p.disk < 128) pps.now }
    ensures { OnOk result (copies.new.items ≡ copies.old.items ++ copies_from mib block (filter (usable_by table.now (has disks)) pps.now)) }
{
    let mut first = None;
    for pp in pps {
        if is_usable(*pp, table, disks) {
            match first {
                None => first = Some(*pp),
                Some(from) => {
                    let copy = Recopy {
                        from: place_on(mib, from, block),
                        into: place_on(mib, *pp, block),
                    };
                    if copies.push(copy).is_err() {
                        return Err(Memory);
                    }
                }
            }
        }
    }
    Ok(())
}

// Whether a copy stands on one of the disks and isn't stale.
pub fn is_usable(pp: Pp, table: &StaleTable, disks: DiskSet) -> bool
    requires place { pp.disk < 128 }
    ensures { result ≡ usable_by table.now (has disks) pp }
{
    disks.has(pp.disk) && !table.is_stale(pp)
}

// Where a block of a volume stands on a copy.
pub fn place_on(mib: u16, pp: Pp, block: u64) -> Place
    requires size { mib ≤ 1024 }
    requires some_size { 1 ≤ mib }
    ensures { result ≡ place_on mib pp block }
{
    let partition = 2048 * u64::from(mib);
    Place {
        disk: pp.disk,
        sector: 4096 + partition * u64::from(pp.pp) + block % partition,
    }
}
