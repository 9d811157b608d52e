//! The copies that stand on a disk, or on one of several.
ghost use Rattle.std.specs.Prelude.{◌≡◌, ◌<◌, ◌++◌, All, IfOk, slice_get};
ghost use Rattle.std.specs.Option.{option_copied};
ghost use Rattle.lvm_num.specs.Descriptor.{IsLaidOut};
ghost use Rattle.lvm_num.specs.declared.descriptor.LvRow.{LvRow};
ghost use Rattle.lvm_move_plan.specs.Standing.{is_asked_for, is_on, standing_in, standing_of, standing_among, standing_on, standing_with, listed};

use lvm_num::{Descriptor, LvRow, Memory, Pp, copies_of};
use std::alloc::Global;

/// A copy of a logical partition of a volume.
#[derive(Clone, Copy, PartialEq, Eq)]
pub struct VolumeCopy {
    /// The number of the volume.
    pub lv: u16,
    /// The logical partition, from 0.
    pub lp: u32,
    /// The number of the copy, from 1.
    pub number: u8,
}

/// The copies of a volume, or of all volumes, that stand on a disk, in the order of volumes, their logical partitions and
/// their copies.
///
/// # Errors
///
/// `Memory` where the memory for them is wanting.
pub fn standing_on(
    alloc: Global,
    d: &Descriptor,
    lv: Option<u16>,
    disk: u16,
) -> Result<Vec<VolumeCopy>, Memory>
    requires { All IsLaidOut d.now.lvs }
    ensures { IfOk result (λ copies. copies.items ≡ standing_on d.now lv disk) }
{
    standing_among(alloc, d, lv, &[disk])
}

/// Those that stand on one of these disks, in the same order.
///
/// # Errors
///
/// `Memory` where the memory for them is wanting.
pub fn standing_among(
    alloc: Global,
    d: &Descriptor,
    lv: Option<u16>,
    disks: &[u16],
) -> Result<Vec<VolumeCopy>, Memory>
    requires { All IsLaidOut d.now.lvs }
    ensures { IfOk result (λ copies. copies.items ≡ standing_among d.now lv (listed disks.now)) }
{
    let mut copies = Vec::new(alloc);
    for row in d.lvs.as_slice() {
        add_volume(&mut copies, row, lv, disks)?;
    }
    Ok(copies)
}

// Adds those of a volume, where it is one that is asked for.
fn add_volume(
    copies: &mut Vec<VolumeCopy>,
    row: &LvRow,
    lv: Option<u16>,
    disks: &[u16],
) -> Result<(), Memory>
    requires { IsLaidOut row.now }
    ensures { IfOk result (λ done. copies.new.items ≡ copies.old.items ++ standing_of lv (listed disks.now) row.now) }
{
    if is_asked_for(lv, row) {
        for lp in 0..row.lps {
            add_partition(copies, row, lp, disks)?;
        }
    }
    Ok(())
}

fn is_asked_for(lv: Option<u16>, row: &LvRow) -> bool
    ensures { result ≡ is_asked_for lv row.now }
{
    match lv {
        None => true,
        Some(number) => row.number == number,
    }
}

// Adds those of a logical partition.
fn add_partition(
    copies: &mut Vec<VolumeCopy>,
    row: &LvRow,
    lp: u32,
    disks: &[u16],
) -> Result<(), Memory>
    requires map { IsLaidOut row.now }
    requires there { lp < row.now.lps }
    ensures { IfOk result (λ done. copies.new.items ≡ copies.old.items ++ standing_with (listed disks.now) row.now lp) }
{
    let all = copies_of(row, lp);
    for place in 0..row.copies {
        if is_on(at(all, place), disks) {
            copies.push(VolumeCopy {
                lv: row.number,
                lp,
                number: place + 1,
            })?;
        }
    }
    Ok(())
}

fn at(pps: &[Pp], place: u8) -> Option<&Pp>
    ensures { option_copied result ≡ slice_get pps.now place }
{
    pps.get(usize::from(place))
}

// Whether there is such a partition, on one of the disks.
fn is_on(pp: Option<&Pp>, disks: &[u16]) -> bool
    ensures { result ≡ is_on (listed disks.now) (option_copied pp.entry) }
{
    match pp {
        None => false,
        Some(pp) => is_listed(disks, pp.disk),
    }
}

/// Whether the disk is one of these.
pub fn is_listed(disks: &[u16], other: u16) -> bool
    ensures { result ≡ listed disks.now other }
{
    disks.iter().any(|disk| other == *disk)
}
