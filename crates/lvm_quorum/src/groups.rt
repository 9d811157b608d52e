//! A group as the disks show it.
ghost use Rattle.std.specs.Prelude.{◌≡◌, ℕ, ◌==◌, ◌&&◌, nat_le, length, Some, None, MatchOption, if◌then◌else◌};
ghost use Rattle.std.specs.List.{list_any};
ghost use Rattle.lvm_num.specs.declared.descriptor.PvRow.{PvRow};
ghost use Rattle.lvm_num.specs.Disks.{has};
ghost use Rattle.lvm_num.specs.Geometry.{sectors_needed};
ghost use Rattle.lvm_num.specs.Record.{newest_below};
ghost use Rattle.lvm_num.specs.Votes.{all_disks};
ghost use Rattle.lvm_quorum.specs.passed.Transfer.{descriptor_among, members_in, if_passes, passes, is_of, is_status_of};
ghost use Rattle.lvm_quorum.specs.Reading.{under};
ghost use Rattle.lvm_quorum.specs.Surveyed.{surveyed};
ghost use Rattle.lvm_quorum.specs.Groups.{shown_record_if, IsGroup, IsLastEpoch};
ghost use Rattle.lvm_quorum.specs.Rows.{AreRows};

use crate::row::{Survey, SurveyRow};
use crate::shown::{Shown, descriptor_of, epoch_of, newer, status_of};
use lvm_num::{Descriptor, DiskSet, Status};

/// A group as the disks show it: its newest descriptor, its voters and their newest status.
#[derive(Drop)]
pub struct Group<'a> {
    pub descriptor: Shown<'a, Descriptor>,
    pub voters: DiskSet,
    pub status: Option<Shown<'a, Status>>,
}

/// The group of an id, if a disk shows a descriptor of it.
pub fn group_of(survey: &Survey, id: u64) -> Option<Group<'_>>
    requires { AreRows survey.now }
    ensures { MatchOption result (descriptor_among (surveyed survey.now) all_disks id ≡ None) (IsGroup (surveyed survey.now) id) }
{
    let descriptor = newest_descriptor(survey, id)?;
    let voters = voters(survey, id, descriptor.value);
    let status = newest_status(survey, id, voters);
    Some(Group {
        descriptor,
        voters,
        status,
    })
}

fn newest_descriptor(survey: &Survey, id: u64) -> Option<Shown<'_, Descriptor>>
    ensures { shown_record_if result ≡ descriptor_among (surveyed survey.now) all_disks id }
{
    let mut newest = None;
    for row in survey.rows.as_slice() {
        newest = newer(newest, descriptor_of(row, id));
    }
    newest
}

// Members whose own newest descriptor is of the group and which are large enough.
fn voters(survey: &Survey, id: u64, group: &Descriptor) -> DiskSet
    requires { AreRows survey.now }
    ensures { (d : ℕ) → has result d ≡ members_in (surveyed survey.now) all_disks id group.now d }
{
    let mut voters = DiskSet::empty();
    for row in survey.rows.as_slice() {
        if is_voter(row, id, group) {
            voters = voters.with(row.disk);
        }
    }
    voters
}

fn is_voter(row: &SurveyRow, id: u64, group: &Descriptor) -> bool
    ensures { result ≡ (passes (is_of id) (under row.now.descriptor row.now.descriptor_stamp) && list_any (λ (member : PvRow). member.disk == row.now.disk && nat_le (sectors_needed group.now.mib member.pps) row.now.sectors) group.now.pvs) }
{
    shows_group(row, id) && has_room(row, group)
}

// Whether the disk's newest descriptor is of the group.
fn shows_group(row: &SurveyRow, id: u64) -> bool
    ensures { result ≡ passes (is_of id) (under row.now.descriptor row.now.descriptor_stamp) }
{
    match &row.descriptor {
        Some(descriptor) => descriptor.id == id,
        None => false,
    }
}

// Whether the disk is a member, and has the sectors that its partitions need.
fn has_room(row: &SurveyRow, group: &Descriptor) -> bool
    ensures { result ≡ list_any (λ (member : PvRow). member.disk == row.now.disk && nat_le (sectors_needed group.now.mib member.pps) row.now.sectors) group.now.pvs }
{
    let members = group.pvs.as_slice();
    members.iter().any(|member| {
        member.disk == row.disk && sectors_needed(group.mib, member.pps) <= row.sectors
    })
}

/// The sectors that a disk with so many partitions of so many MiB needs.
pub fn sectors_needed(mib: u16, pps: u16) -> u64
    ensures { result ≡ sectors_needed mib pps }
{
    4096 + 2048 * u64::from(mib) * u64::from(pps)
}

fn newest_status(survey: &Survey, id: u64, voters: DiskSet) -> Option<Shown<'_, Status>>
    requires { AreRows survey.now }
    ensures { shown_record_if result ≡ newest_below (λ d. if has voters d then if_passes (is_status_of id) ((surveyed survey.now).status d) else None) (length survey.now.rows) }
{
    let mut newest = None;
    for row in survey.rows.as_slice() {
        if voters.has(row.disk) {
            newest = newer(newest, status_of(row, id));
        }
    }
    newest
}

/// The greatest epoch of the records that the disks show of a group.
pub fn greatest_epoch(survey: &Survey, id: u64) -> u64
    ensures { IsLastEpoch (surveyed survey.now) id result }
{
    let mut epoch: u64 = 0;
    for row in survey.rows.as_slice() {
        let shown = epoch_of(descriptor_of(row, id)).max(epoch_of(status_of(row, id)));
        epoch = epoch.max(shown);
    }
    epoch
}
