//! What stands against members' joining before any disk is read.
ghost use Rattle.std.specs.Prelude.{◌≡◌, ◌↔◌, ◌≢◌, ◌<◌, ◌≤◌, length, List, ℕ, None, AllPairs, IfOk, IfErr, IsTrue};
ghost use Rattle.std.specs.Option.{option_copied};
ghost use Rattle.lvm_num.specs.Descriptor.{is_size, most_members};
ghost use Rattle.lvm_num.specs.Geometry.{data_start, partition_blocks, partition_count};
ghost use Rattle.lvm_core.specs.State.{state_of};
ghost use Rattle.lvm_group.specs.NewGroup.{first_absent, first_too_small};
ghost use Rattle.lvm_volume_plan.specs.Faults.{TakesCommands};
ghost use Rattle.lvm_volume_plan.specs.PlannedVolume.{AreOfOneGroup};
ghost use Rattle.lvm_extend_plan.specs.Descriptors.{first_member};
ghost use Rattle.lvm_extend_plan.specs.Refusals.{AreJoining, HasRoomFor, MayRead, RefusesDisks, RefusesFirst};

use crate::fault::ExtendFault;
use lvm_core::CommandDriver;
use lvm_disk::Shelf;
use lvm_num::{DATA_START, Descriptor, MIB_BLOCKS, MOST_PARTITIONS, has_member};
use lvm_volume_plan::{GroupFault, takes_commands};

// How many sequence numbers a command leaves to spare.
const NUMBERS: u32 = 65_536;

// The most partitions of a member.
const MOST: u64 = MOST_PARTITIONS as u64;

/// Whether these disks may join, by all but what stands on them.
pub fn check<S: Shelf>(driver: &CommandDriver<S>, disks: &[u16]) -> Result<(), ExtendFault>
    ensures may { IfOk result (λ done. MayRead disks.now (state_of S.device driver.now)) }
    ensures group { IfOk result (λ done. AreOfOneGroup driver.now.1) }
    ensures refused { IfErr result (RefusesFirst disks.now (state_of S.device driver.now)) }
{
    can_take(driver)?;
    may_join(driver, disks)?;
    if has_room(driver, disks) {
        Ok(())
    } else {
        Err(ExtendFault::HistoryFull)
    }
}

// Whether the session takes a command.
fn can_take<S: Shelf>(driver: &CommandDriver<S>) -> Result<(), ExtendFault>
    ensures takes { IfOk result (λ done. TakesCommands driver.now.1) }
    ensures group { IfOk result (λ done. AreOfOneGroup driver.now.1) }
    ensures refused { IfErr result (λ why. (disks : List ℕ) → RefusesFirst disks (state_of S.device driver.now) why) }
{
    match takes_commands(driver) {
        Ok(()) => Ok(()),
        Err(GroupFault::Dark) => Err(ExtendFault::Dark),
        Err(GroupFault::WentOff { have, total }) => Err(ExtendFault::WentOff { have, total }),
        Err(GroupFault::Busy) => Err(ExtendFault::Busy),
        Err(_) => unreachable!(),
    }
}

// Whether the disks are there, no members, not too many, and large enough.
fn may_join<S: Shelf>(driver: &CommandDriver<S>, disks: &[u16]) -> Result<(), ExtendFault>
    requires group { AreOfOneGroup driver.now.1 }
    ensures may { IfOk result (λ done. AreJoining (S.device driver.now.0).sizes driver.now.1.descriptor disks.now) }
    ensures refused { IfErr result (RefusesDisks (S.device driver.now.0).sizes driver.now.1.descriptor disks.now) }
{
    if let Some(disk) = first_absent(driver, disks) {
        return Err(ExtendFault::NoDisk { disk });
    }
    let group = driver.descriptor();
    if let Some(disk) = first_member(group, disks) {
        return Err(ExtendFault::InGroup { disk });
    }
    let limit = limit_of(group);
    if group.pvs.len() + disks.len() > limit as usize {
        return Err(ExtendFault::TooMany { limit });
    }
    match first_too_small(driver, group.mib, disks) {
        Some(disk) => Err(ExtendFault::TooSmall { disk }),
        None => Ok(()),
    }
}

// The first disk that isn't there.
fn first_absent<S: Shelf>(driver: &CommandDriver<S>, disks: &[u16]) -> Option<u16>
    ensures { result ≡ first_absent (S.device driver.now.0).sizes disks.now }
{
    let count = driver.disks();
    disks.iter().copied().find(|disk| *disk >= count)
}

// The first that is a member.
fn first_member(d: &Descriptor, disks: &[u16]) -> Option<u16>
    ensures { result ≡ first_member d.now disks.now }
{
    disks
        .iter()
        .copied()
        .find(|disk| has_member(d.pvs.as_slice(), *disk))
}

// How many members a group may have.
fn limit_of(d: &Descriptor) -> u32
    ensures { result ≡ most_members d.now.big }
{
    if d.big { 128 } else { 32 }
}

// The first disk on which no partition fits.
fn first_too_small<S: Shelf>(driver: &CommandDriver<S>, mib: u16, disks: &[u16]) -> Option<u16>
    requires there { first_absent (S.device driver.now.0).sizes disks.now ≡ None }
    requires size { IsTrue (is_size mib) }
    ensures { result ≡ first_too_small (S.device driver.now.0).sizes mib disks.now }
{
    for disk in disks {
        if partitions_on(driver.sectors(*disk), mib) == 0 {
            return Some(*disk);
        }
    }
    None
}

/// How many partitions a disk of so many sectors has as a member.
pub fn partitions_on(sectors: u64, mib: u16) -> u16
    requires { IsTrue (is_size mib) }
    ensures { result ≡ partition_count sectors mib }
{
    let room = sectors.saturating_sub(DATA_START) / (MIB_BLOCKS * u64::from(mib));
    room.min(MOST) as u16
}

// Whether an entry is left for each disk, and numbers enough.
fn has_room<S: Shelf>(driver: &CommandDriver<S>, disks: &[u16]) -> bool
    ensures { IsTrue result ↔ HasRoomFor disks.now driver.now.1 }
{
    driver.history().spare_entries() as usize >= disks.len() && driver.numbers_left() >= NUMBERS
}
