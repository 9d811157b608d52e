//! What the disks show that stands against a new group.
ghost use Rattle.std.specs.Prelude.{◌≡◌, ◌≢◌, ◌↔◌, ◌⊎◌, ◌<◌, ◌+◌, false, true, Some, IfSome, IfNone, IfOk, IfErr, IsTrue, IsFalse};
ghost use Rattle.lvm_quorum.specs.Rows.{AreRows};
ghost use Rattle.lvm_quorum.specs.Surveyed.{surveyed};
ghost use Rattle.lvm_group.specs.Shown.{HasGroup, ShowsEarlier, ShowsMoment};
ghost use Rattle.lvm_group.specs.Judged.{DiskIsTaken, IsLastOf, IsFirstFailed, NoneFailed, LetsBegin, RefusesShown};

use crate::below::Cause;
use lvm_quorum::{Survey, SurveyRow};

/// Whether what was found on the disks lets a group be made at the moment.
pub fn judge(survey: &Survey, force: bool, moment: u64) -> Result<(), Cause>
    requires rows { AreRows survey.now }
    requires moment { moment ≢ 0 }
    ensures lets { IfOk result (λ nothing. LetsBegin survey.now force moment) }
    ensures refused { IfErr result (λ cause. RefusesShown survey.now force moment cause) }
{
    if let Some(disk) = first_failed(survey) {
        return Err(Cause::DiskFailed { disk });
    }
    if has_group(survey, force) {
        return Err(Cause::GroupExists);
    }
    if moment == u64::MAX {
        return Err(Cause::ClockBack { seen: u64::MAX });
    }
    let seen = last_shown(survey);
    if moment <= seen {
        return Err(Cause::ClockBack { seen });
    }
    Ok(())
}

// The lowest disk of which a read failed.
fn first_failed(survey: &Survey) -> Option<u16>
    requires { AreRows survey.now }
    ensures some { IfSome result (IsFirstFailed survey.now) }
    ensures none { IfNone result (NoneFailed survey.now) }
{
    for row in survey.rows.as_slice() {
        if row.failed {
            return Some(row.disk);
        }
    }
    None
}

// Whether a disk is in a group; with force, in one that has a volume.
fn has_group(survey: &Survey, force: bool) -> bool
    ensures yes { IsTrue result → HasGroup (surveyed survey.now) force }
    ensures no { IsFalse result → HasGroup (surveyed survey.now) force → ⊥ }
{
    for row in survey.rows.as_slice() {
        if is_taken(row, force) {
            return true;
        }
    }
    false
}

// Whether the disk of the row is so.
fn is_taken(row: &SurveyRow, force: bool) -> bool
    ensures { IsTrue result ↔ DiskIsTaken row.now force }
{
    match &row.descriptor {
        Some(group) => !force || !group.lvs.is_empty(),
        None => false,
    }
}

// The last moment that the disks show, 0 where they show none.
fn last_shown(survey: &Survey) -> u64
    ensures all { ShowsEarlier (surveyed survey.now) (result + 1) }
    ensures one { (result ≡ 0) ⊎ ShowsMoment (surveyed survey.now) result }
{
    let mut last: u64 = 0;
    for row in survey.rows.as_slice() {
        last = last.max(last_of(row));
    }
    last
}

// The last moment of a row, 0 where it has none.
fn last_of(row: &SurveyRow) -> u64
    ensures { IsLastOf row.now result }
{
    let status: u64 = if row.status.is_some() {
        row.status_stamp.epoch
    } else {
        0
    };
    match &row.descriptor {
        Some(group) => status.max(row.descriptor_stamp.epoch).max(group.id),
        None => status,
    }
}
