//! What stands against members' leaving.
ghost use Rattle.std.specs.Prelude.{◌≡◌, ◌≢◌, ◌↔◌, ℕ, List, AllPairs, IfOk, IfErr, IfSome, IfNone, IsTrue, IsFalse};
ghost use Rattle.lvm_num.specs.Votes.{votes_in, total_votes, is_enough_to_write, CanWrite};
ghost use Rattle.std.specs.Option.{option_copied};
ghost use Rattle.lvm_num.specs.Descriptor.{IsValid};
ghost use Rattle.lvm_num.specs.Disks.{has};
ghost use Rattle.lvm_core.specs.Settled.{IsSettled};
ghost use Rattle.lvm_volume_plan.specs.Faults.{TakesCommands};
ghost use Rattle.lvm_volume_plan.specs.PlannedVolume.{AreOfOneGroup};
ghost use Rattle.lvm_member_plan.specs.Descriptors.{first_stranger, first_used, are_all_named};
ghost use Rattle.lvm_member_plan.specs.Refusals.{AreFree, HasVotes, HasRoom, MayReduce, RefusesReduce, RefusesMembers, RefusesVotes};

use crate::descriptors::{is_in, is_used, without_members};
use crate::fault::ReduceFault;
use lvm_core::CommandDriver;
use lvm_disk::Shelf;
use lvm_num::{Descriptor, DiskSet, Memory, has_member};
use lvm_status::members_there;
use lvm_volume_plan::{GroupFault, takes_commands};
use std::alloc::Global;

// How many sequence numbers a command leaves to spare.
const NUMBERS: u32 = 65_536;

/// Whether these members may leave.
pub fn check<S: Shelf>(
    alloc: Global,
    driver: &CommandDriver<S>,
    disks: &[u16],
) -> Result<(), ReduceFault>
    requires settled { TakesCommands driver.now.1 → IsSettled driver.now.1 }
    requires differ { AllPairs (λ a b. a ≢ b) disks.now }
    ensures may { IfOk result (λ done. MayReduce disks.now driver.now.1) }
    ensures group { IfOk result (λ done. AreOfOneGroup driver.now.1) }
    ensures refused { IfErr result (RefusesReduce disks.now driver.now.1) }
{
    can_take(driver)?;
    names_members(driver.descriptor(), disks)?;
    has_votes(alloc, driver, disks)?;
    if has_room(driver, disks) {
        Ok(())
    } else {
        Err(ReduceFault::HistoryFull)
    }
}

// Whether the session takes a command.
fn can_take<S: Shelf>(driver: &CommandDriver<S>) -> Result<(), ReduceFault>
    ensures takes { IfOk result (λ done. TakesCommands driver.now.1) }
    ensures group { IfOk result (λ done. AreOfOneGroup driver.now.1) }
    ensures refused { IfErr result (λ why. (disks : List ℕ) → RefusesReduce disks driver.now.1 why) }
{
    match takes_commands(driver) {
        Ok(()) => Ok(()),
        Err(GroupFault::Dark) => Err(ReduceFault::Dark),
        Err(GroupFault::WentOff { have, total }) => Err(ReduceFault::WentOff { have, total }),
        Err(GroupFault::Busy) => Err(ReduceFault::Busy),
        Err(_) => unreachable!(),
    }
}

// Whether the disks are members, not all of them, on which no volume has a partition.
fn names_members(d: &Descriptor, disks: &[u16]) -> Result<(), ReduceFault>
    ensures free { IfOk result (λ done. AreFree d.now disks.now) }
    ensures refused { IfErr result (RefusesMembers d.now disks.now) }
{
    if let Some(disk) = first_stranger(d, disks) {
        return Err(ReduceFault::NoDisk { disk: *disk });
    }
    if are_all_named(d, disks) {
        return Err(ReduceFault::LastDisk);
    }
    if let Some(disk) = first_used(d, disks) {
        return Err(ReduceFault::DiskInUse { disk: *disk });
    }
    Ok(())
}

// The first that is no member.
fn first_stranger<'a>(d: &Descriptor, disks: &'a [u16]) -> Option<&'a u16>
    ensures { option_copied result ≡ first_stranger d.now disks.now }
{
    disks
        .iter()
        .find(|disk| !has_member(d.pvs.as_slice(), **disk))
}

// The first on which a volume has a partition.
fn first_used<'a>(d: &Descriptor, disks: &'a [u16]) -> Option<&'a u16>
    ensures { option_copied result ≡ first_used d.now disks.now }
{
    disks.iter().find(|disk| is_used(d, **disk))
}

// Whether all members are named.
fn are_all_named(d: &Descriptor, disks: &[u16]) -> bool
    ensures { result ≡ are_all_named d.now disks.now }
{
    d.pvs.as_slice().iter().all(|row| is_in(disks, row.disk))
}

// Whether the members that aren't missing have votes enough to write by the last descriptor.
fn has_votes<S: Shelf>(
    alloc: Global,
    driver: &CommandDriver<S>,
    disks: &[u16],
) -> Result<(), ReduceFault>
    requires settled { IsSettled driver.now.1 }
    requires group { AreOfOneGroup driver.now.1 }
    requires free { AreFree driver.now.1.descriptor disks.now }
    ensures enough { IfOk result (λ done. HasVotes disks.now driver.now.1) }
    ensures refused { IfErr result (RefusesVotes disks.now driver.now.1) }
{
    let group = driver.descriptor();
    let next = match without_members(alloc, group, disks, false) {
        Ok(next) => next,
        Err(Memory) => return Err(ReduceFault::Memory),
    };
    match few_votes(&next, members_there(group, driver.table())) {
        Some((have, total)) => Err(ReduceFault::NoQuorum { have, total }),
        None => Ok(()),
    }
}

// Whether an entry is left for each disk, and numbers enough.
fn has_room<S: Shelf>(driver: &CommandDriver<S>, disks: &[u16]) -> bool
    ensures { IsTrue result ↔ HasRoom disks.now driver.now.1 }
{
    driver.history().spare_entries() as usize >= disks.len() && driver.numbers_left() >= NUMBERS
}

/// The votes of disks by a descriptor and those of all, where they are too few to write.
pub fn few_votes(d: &Descriptor, there: DiskSet) -> Option<(u32, u32)>
    requires { IsValid d.now }
    ensures few { IfSome result (λ votes. (votes.0 ≡ votes_in d.now (has there)) × (votes.1 ≡ total_votes d.now) × IsFalse (is_enough_to_write d.now votes.0)) }
    ensures enough { IfNone result (CanWrite d.now (has there)) }
{
    let have = d.votes_in(there);
    if d.enough_to_write(have) {
        None
    } else {
        Some((have, d.total_votes()))
    }
}
