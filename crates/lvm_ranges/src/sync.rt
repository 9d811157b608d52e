//! Copies are brought up.
ghost use Rattle.std.specs.Prelude.{◌≡◌, IfErr, is_some};
ghost use Rattle.lvm_session.specs.declared.open.Power.TheVariants as power;
ghost use Rattle.lvm_session.specs.State.{state_of};
ghost use Rattle.lvm_ranges.specs.Causes.{SyncCause};
ghost use Rattle.lvm_ranges.specs.Syncing.{IsAnswer, SyncGives, fault_by, fault_on, group_copies, group_fault, no_tally, numbers_fault, partition_copies, partition_fault, volume_copies, volume_fault};
ghost use Rattle.lvm_ranges.specs.Turning.{GoesBeside};

use crate::below::Driver;
use crate::fault::SyncFault;
use crate::passes::{pass_group, pass_partition, pass_volume};
use crate::tally::Tally;
use lvm_disk::Shelf;
use lvm_num::volume_of;
use lvm_session::{CopyState, Power};
use lvm_transfer::Patience;

// Whether more than 65,535 numbers are left for the stamps of records.
fn numbers_fault<S: Shelf>(driver: &Driver<S>) -> Option<SyncFault>
    ensures { result ≡ numbers_fault driver.now.1 }
{
    if driver.numbers_left() < 65_536 {
        Some(SyncFault::HistoryFull)
    } else {
        None
    }
}

// No copy is open where it is closed.
fn has_copy<S: Shelf>(driver: &Driver<S>) -> bool
    ensures { result ≡ is_some driver.now.1.copy }
{
    match driver.copy_state() {
        CopyState::Closed => false,
        _ => true,
    }
}

// Where the session is over, or a copy is open, else this.
fn or_fault<S: Shelf>(driver: &Driver<S>, further: Option<SyncFault>) -> Option<SyncFault>
    ensures { result ≡ fault_by driver.now.1.power (fault_on driver.now.1 further) }
{
    match driver.power() {
        Power::Dark => Some(SyncFault::Dark),
        Power::Off => Some(SyncFault::Off),
        Power::On | Power::Stuck => {
            if has_copy(driver) {
                Some(SyncFault::Busy)
            } else {
                further
            }
        }
    }
}

fn group_fault<S: Shelf>(driver: &Driver<S>) -> Option<SyncFault>
    ensures { result ≡ group_fault driver.now.1 }
{
    or_fault(driver, numbers_fault(driver))
}

fn volume_fault<S: Shelf>(driver: &Driver<S>, lv: u16) -> Option<SyncFault>
    ensures { result ≡ volume_fault driver.now.1 lv }
{
    let further = match volume_of(driver.descriptor(), lv) {
        None => Some(SyncFault::NoVolume),
        Some(_) => numbers_fault(driver),
    };
    or_fault(driver, further)
}

fn partition_fault<S: Shelf>(driver: &Driver<S>, lv: u16, lp: u32) -> Option<SyncFault>
    ensures { result ≡ partition_fault driver.now.1 lv lp }
{
    let further = match volume_of(driver.descriptor(), lv) {
        None => Some(SyncFault::NoVolume),
        Some(row) if lp < row.lps => numbers_fault(driver),
        Some(_) => Some(SyncFault::OutOfRange),
    };
    or_fault(driver, further)
}

// How many were made fresh, unless one stayed stale.
fn answer(tally: Tally) -> Result<u32, SyncFault>
    ensures { IsAnswer tally result }
{
    match tally.fault {
        None => Ok(tally.made),
        Some(why) => Err(why),
    }
}

// Nothing yet.
fn no_tally() -> Tally
    ensures { result ≡ no_tally }
{
    Tally {
        made: 0,
        fault: None,
    }
}

/// Brings up each stale copy of a logical partition, from 0, of a volume, in order, beside the requests that are open. Answers how
/// many it has made fresh. A copy is judged when its turn comes. It never ends for want of memory.
///
/// # Errors
///
/// Those of `SyncFault`, in their order. Nothing changes where it isn't begun.
pub fn sync_partition<S: Shelf>(
    driver: &mut Driver<S>,
    lv: u16,
    lp: u32,
    patience: &mut Patience,
) -> Result<u32, SyncFault>
    requires unstuck { driver.old.1.power ≡ power.Stuck → ⊥ }
    ensures gives { SyncGives (partition_fault driver.old.1 lv lp) (partition_copies driver.old.1.descriptor lv lp) patience.old.left patience.new.left (state_of S.device driver.old) (state_of S.device driver.new) result }
    ensures caused { IfErr result (SyncCause patience.new.left (state_of S.device driver.old) (state_of S.device driver.new)) }
    ensures beside { GoesBeside (state_of S.device driver.old) (state_of S.device driver.new) patience.old.left patience.new.left }
{
    match partition_fault(driver, lv, lp) {
        Some(why) => Err(why),
        None => {
            driver.is_sound();
            let mut tally = no_tally();
            pass_partition(driver, lv, lp, &mut tally, patience)?;
            answer(tally)
        }
    }
}

/// Brings up each stale copy of a volume, in the order of its logical partitions and their copies.
///
/// # Errors
///
/// As `sync_partition`.
pub fn sync_volume<S: Shelf>(
    driver: &mut Driver<S>,
    lv: u16,
    patience: &mut Patience,
) -> Result<u32, SyncFault>
    requires unstuck { driver.old.1.power ≡ power.Stuck → ⊥ }
    ensures gives { SyncGives (volume_fault driver.old.1 lv) (volume_copies driver.old.1.descriptor lv) patience.old.left patience.new.left (state_of S.device driver.old) (state_of S.device driver.new) result }
    ensures caused { IfErr result (SyncCause patience.new.left (state_of S.device driver.old) (state_of S.device driver.new)) }
    ensures beside { GoesBeside (state_of S.device driver.old) (state_of S.device driver.new) patience.old.left patience.new.left }
{
    match volume_fault(driver, lv) {
        Some(why) => Err(why),
        None => {
            driver.is_sound();
            let mut tally = no_tally();
            pass_volume(driver, lv, &mut tally, patience)?;
            answer(tally)
        }
    }
}

/// Brings up each stale copy of the group, in the order of its volumes, their logical partitions and their copies.
///
/// # Errors
///
/// As `sync_partition`.
pub fn sync_group<S: Shelf>(
    driver: &mut Driver<S>,
    patience: &mut Patience,
) -> Result<u32, SyncFault>
    requires unstuck { driver.old.1.power ≡ power.Stuck → ⊥ }
    ensures gives { SyncGives (group_fault driver.old.1) (group_copies driver.old.1.descriptor) patience.old.left patience.new.left (state_of S.device driver.old) (state_of S.device driver.new) result }
    ensures caused { IfErr result (SyncCause patience.new.left (state_of S.device driver.old) (state_of S.device driver.new)) }
    ensures beside { GoesBeside (state_of S.device driver.old) (state_of S.device driver.new) patience.old.left patience.new.left }
{
    match group_fault(driver) {
        Some(why) => Err(why),
        None => {
            driver.is_sound();
            let mut tally = no_tally();
            pass_group(driver, &mut tally, patience)?;
            answer(tally)
        }
    }
}
