//! Which group a name chooses.
ghost use Rattle.std.specs.Prelude.{◌≡◌, IfOk};
ghost use Rattle.lvm_quorum.specs.Surveyed.{surveyed, IsSurveyValid};
ghost use Rattle.lvm_quorum.specs.Choosing.{ChooseGives};
ghost use Rattle.lvm_quorum.specs.Groups.{GroupGives};
ghost use Rattle.lvm_quorum.specs.Rows.{AreRows};

use crate::groups::{greatest_epoch, group_of};
use crate::names::{first_named, has_record, other_named};
use crate::row::Survey;
use lvm_num::{Descriptor, DiskSet, Memory, Name, Status, clone_descriptor, clone_status};
use std::alloc::Global;

/// The group that a name chooses, by the disks that answered.
#[derive(Drop)]
pub struct Choice {
    /// Its newest descriptor.
    pub descriptor: Descriptor,
    /// The newest status that a voter has.
    pub status: Status,
    /// Its voters: members whose own newest descriptor is of the group and which are large enough.
    pub answering: DiskSet,
    /// The greatest epoch of the records that the disks show of the group.
    pub seen: u64,
}

/// Why no group is chosen.
#[derive(Clone, Copy, PartialEq, Eq)]
pub enum ChooseFault {
    /// No disk's newest descriptor has the name, or no voter of a group of that name has a status.
    NoRecord,
    /// Two groups have the name.
    Ambiguous,
    /// The voters have so many votes of so many, too few for the group to vary on.
    NoQuorum { have: u32, total: u32 },
    /// Want of memory.
    Memory,
}

/// The group that a name chooses, as the disks of a survey show it: its newest descriptor and the newest
/// status of its voters, where they have votes enough for it to vary on. Several refusals that hold are
/// answered by the first of `NoRecord`, `Ambiguous` and `NoQuorum`. No disk is read or written.
pub fn choose(alloc: Global, survey: &Survey, name: Name) -> Result<Choice, ChooseFault>
    requires rows { AreRows survey.now }
    requires valid { IsSurveyValid survey.now }
    ensures { ChooseGives (surveyed survey.now) name result }
{
    let Some(id) = first_named(survey, &name) else {
        return Err(ChooseFault::NoRecord);
    };
    if !has_record(survey, &name) {
        return Err(ChooseFault::NoRecord);
    }
    if other_named(survey, &name, id).is_some() {
        return Err(ChooseFault::Ambiguous);
    }
    choice_of(alloc, survey, id)
}

// The group of an id, where a voter has a status and the voters have votes enough.
fn choice_of(alloc: Global, survey: &Survey, id: u64) -> Result<Choice, ChooseFault>
    requires rows { AreRows survey.now }
    requires valid { IsSurveyValid survey.now }
    ensures { GroupGives (surveyed survey.now) id result }
{
    let Some(group) = group_of(survey, id) else {
        return Err(ChooseFault::NoRecord);
    };
    let Some(status) = group.status else {
        return Err(ChooseFault::NoRecord);
    };
    let descriptor = group.descriptor.value;
    let have = descriptor.votes_in(group.voters);
    if !descriptor.enough_to_read(have) {
        let total = descriptor.total_votes();
        return Err(ChooseFault::NoQuorum { have, total });
    }
    match copies(alloc, descriptor, status.value) {
        Ok((descriptor, status)) => Ok(Choice {
            descriptor,
            status,
            answering: group.voters,
            seen: greatest_epoch(survey, id),
        }),
        Err(Memory) => Err(ChooseFault::Memory),
    }
}

// A descriptor and a status that say the same.
fn copies(
    alloc: Global,
    descriptor: &Descriptor,
    status: &Status,
) -> Result<(Descriptor, Status), Memory>
    ensures descriptor { IfOk result (λ made. made.0 ≡ descriptor.now) }
    ensures status { IfOk result (λ made. made.1 ≡ status.now) }
{
    let descriptor = clone_descriptor(alloc, descriptor)?;
    let status = clone_status(alloc, status)?;
    Ok((descriptor, status))
}
