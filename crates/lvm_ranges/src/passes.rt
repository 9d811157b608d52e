//! Copies, one after the other: of a logical partition, of a volume, of a group.
ghost use Rattle.std.specs.Prelude.{◌≡◌, ◌<◌, Some, None, length, slice_get};
ghost use Rattle.std.specs.Option.{option_map, option_map_or};
ghost use Rattle.lvm_num.specs.declared.descriptor.LvRow.{LvRow};
ghost use Rattle.lvm_num.specs.Descriptor.{volume_of};
ghost use Rattle.lvm_session.specs.declared.open.Power.TheVariants as power;
ghost use Rattle.lvm_session.specs.Judging.{copies_in};
ghost use Rattle.lvm_session.specs.State.{state_of};
ghost use Rattle.lvm_ranges.specs.Syncing.{PassesAll, copies_at, copy_in, group_copies, partition_copies, volume_copies};
ghost use Rattle.lvm_ranges.specs.Turning.{GoesBeside};

use crate::below::Driver;
use crate::copies::pass_copy;
use crate::fault::SyncFault;
use crate::tally::Tally;
use lvm_disk::Shelf;
use lvm_due::copies_in;
use lvm_num::{MOST_COPIES, Pp, volume_of};
use lvm_transfer::Patience;

// The partition of a copy, by its place from 0.
fn pp_at<S: Shelf>(driver: &Driver<S>, lv: u16, lp: u32, place: u8) -> Option<Pp>
    requires within { (row : LvRow) → volume_of driver.now.1.descriptor lv ≡ Some row → lp < row.lps }
    ensures { result ≡ slice_get (copies_in driver.now.1.descriptor lv lp) place }
{
    match copies_in(driver.descriptor(), lv, lp).get(usize::from(place)) {
        None => None,
        Some(pp) => Some(*pp),
    }
}

// Passes the copy at a place, where there is one.
fn pass_place<S: Shelf>(
    driver: &mut Driver<S>,
    lv: u16,
    lp: u32,
    place: u8,
    tally: &mut Tally,
    patience: &mut Patience,
) -> Result<(), SyncFault>
    requires unstuck { driver.old.1.power ≡ power.Stuck → ⊥ }
    requires none { driver.old.1.copy ≡ None }
    requires within { (row : LvRow) → volume_of driver.old.1.descriptor lv ≡ Some row → lp < row.lps }
    requires place { place < 3 }
    ensures ends { PassesAll (copy_in driver.old.1.descriptor lv lp place) patience.old.left patience.new.left (state_of S.device driver.old) (state_of S.device driver.new) tally.old tally.new result }
    ensures beside { GoesBeside (state_of S.device driver.old) (state_of S.device driver.new) patience.old.left patience.new.left }
{
    match pp_at(driver, lv, lp, place) {
        None => Ok(()),
        Some(pp) => {
            let how = pass_copy(driver, lv, lp, place + 1, pp, patience)?;
            tally.add(how);
            Ok(())
        }
    }
}

/// Passes the copies of a logical partition.
///
/// # Errors
///
/// Where the session is over, the patience or the numbers of stamps have run out.
pub fn pass_partition<S: Shelf>(
    driver: &mut Driver<S>,
    lv: u16,
    lp: u32,
    tally: &mut Tally,
    patience: &mut Patience,
) -> Result<(), SyncFault>
    requires unstuck { driver.old.1.power ≡ power.Stuck → ⊥ }
    requires none { driver.old.1.copy ≡ None }
    requires within { (row : LvRow) → volume_of driver.old.1.descriptor lv ≡ Some row → lp < row.lps }
    ensures ends { PassesAll (partition_copies driver.old.1.descriptor lv lp) patience.old.left patience.new.left (state_of S.device driver.old) (state_of S.device driver.new) tally.old tally.new result }
    ensures beside { GoesBeside (state_of S.device driver.old) (state_of S.device driver.new) patience.old.left patience.new.left }
{
    for place in 0..MOST_COPIES {
        pass_place(driver, lv, lp, place, tally, patience)?;
    }
    Ok(())
}

// How many logical partitions a volume has.
fn partition_count<S: Shelf>(driver: &Driver<S>, lv: u16) -> u32
    ensures { result ≡ option_map_or (λ (row : LvRow). row.lps) (volume_of driver.now.1.descriptor lv) 0 }
{
    match volume_of(driver.descriptor(), lv) {
        None => 0,
        Some(row) => row.lps,
    }
}

/// Passes the copies of a volume.
///
/// # Errors
///
/// Where the session is over, the patience or the numbers of stamps have run out.
pub fn pass_volume<S: Shelf>(
    driver: &mut Driver<S>,
    lv: u16,
    tally: &mut Tally,
    patience: &mut Patience,
) -> Result<(), SyncFault>
    requires unstuck { driver.old.1.power ≡ power.Stuck → ⊥ }
    requires none { driver.old.1.copy ≡ None }
    ensures ends { PassesAll (volume_copies driver.old.1.descriptor lv) patience.old.left patience.new.left (state_of S.device driver.old) (state_of S.device driver.new) tally.old tally.new result }
    ensures beside { GoesBeside (state_of S.device driver.old) (state_of S.device driver.new) patience.old.left patience.new.left }
{
    for lp in 0..partition_count(driver, lv) {
        pass_partition(driver, lv, lp, tally, patience)?;
    }
    Ok(())
}

// How many volumes the group has.
fn volume_count<S: Shelf>(driver: &Driver<S>) -> usize
    ensures { result ≡ length driver.now.1.descriptor.lvs }
{
    driver.descriptor().lvs.len()
}

// The number of the volume at a place.
fn volume_at<S: Shelf>(driver: &Driver<S>, place: usize) -> Option<u16>
    ensures { result ≡ option_map (λ (row : LvRow). row.number) (slice_get driver.now.1.descriptor.lvs place) }
{
    match driver.descriptor().lvs.as_slice().get(place) {
        None => None,
        Some(row) => Some(row.number),
    }
}

// Passes the copies of the volume at a place.
fn pass_volume_at<S: Shelf>(
    driver: &mut Driver<S>,
    place: usize,
    tally: &mut Tally,
    patience: &mut Patience,
) -> Result<(), SyncFault>
    requires unstuck { driver.old.1.power ≡ power.Stuck → ⊥ }
    requires none { driver.old.1.copy ≡ None }
    ensures ends { PassesAll (copies_at driver.old.1.descriptor place) patience.old.left patience.new.left (state_of S.device driver.old) (state_of S.device driver.new) tally.old tally.new result }
    ensures beside { GoesBeside (state_of S.device driver.old) (state_of S.device driver.new) patience.old.left patience.new.left }
{
    match volume_at(driver, place) {
        None => Ok(()),
        Some(lv) => pass_volume(driver, lv, tally, patience),
    }
}

/// Passes the copies of the group.
///
/// # Errors
///
/// Where the session is over, the patience or the numbers of stamps have run out.
pub fn pass_group<S: Shelf>(
    driver: &mut Driver<S>,
    tally: &mut Tally,
    patience: &mut Patience,
) -> Result<(), SyncFault>
    requires unstuck { driver.old.1.power ≡ power.Stuck → ⊥ }
    requires none { driver.old.1.copy ≡ None }
    ensures ends { PassesAll (group_copies driver.old.1.descriptor) patience.old.left patience.new.left (state_of S.device driver.old) (state_of S.device driver.new) tally.old tally.new result }
    ensures beside { GoesBeside (state_of S.device driver.old) (state_of S.device driver.new) patience.old.left patience.new.left }
{
    for place in 0..volume_count(driver) {
        pass_volume_at(driver, place, tally, patience)?;
    }
    Ok(())
}
