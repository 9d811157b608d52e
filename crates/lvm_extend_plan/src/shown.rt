//! What the disks show that stands against their joining a group.
ghost use Rattle.std.specs.Prelude.{◌≡◌, ◌≢◌, ◌↔◌, ◌⊎◌, ◌≤◌, ◌<◌, ◌+◌, false, true, Some, IfSome, IfNone, IfOk, IfErr, IsTrue, IsFalse};
ghost use Rattle.lvm_core.specs.Committing.{is_in};
ghost use Rattle.lvm_quorum.specs.Rows.{AreRows};
ghost use Rattle.lvm_quorum.specs.Surveyed.{surveyed};
ghost use Rattle.lvm_extend_plan.specs.Judged.{AreRead, IsFirstUnread, HasForeign, ShowsForeign, IsLastOf, ShowsUpTo, ShowsEpoch, LetsJoin, RefusesShown};

use crate::fault::ExtendFault;
use lvm_member_plan::is_in;
use lvm_quorum::{Survey, SurveyRow};

/// Whether what was found on these disks lets them join a group of this id, whose session has this moment.
pub fn judge(survey: &Survey, disks: &[u16], id: u64, moment: u64) -> Result<(), ExtendFault>
    requires rows { AreRows survey.now }
    requires moment { moment ≢ 0 }
    ensures lets { IfOk result (λ nothing. LetsJoin survey.now disks.now id moment) }
    ensures refused { IfErr result (λ fault. RefusesShown survey.now disks.now id moment fault) }
{
    if let Some(disk) = first_unread(survey, disks) {
        return Err(ExtendFault::DiskFailed { disk });
    }
    if shows_foreign(survey, disks, id) {
        return Err(ExtendFault::GroupExists);
    }
    let seen = last_epoch(survey, disks);
    if seen < moment {
        Ok(())
    } else {
        Err(ExtendFault::ClockBack { seen })
    }
}

// The lowest of these disks of which a read failed.
fn first_unread(survey: &Survey, disks: &[u16]) -> Option<u16>
    requires { AreRows survey.now }
    ensures some { IfSome result (IsFirstUnread survey.now disks.now) }
    ensures none { IfNone result (AreRead survey.now disks.now) }
{
    for row in survey.rows.as_slice() {
        if row.failed && is_in(disks, row.disk) {
            return Some(row.disk);
        }
    }
    None
}

// Whether one of these disks shows another group.
fn shows_foreign(survey: &Survey, disks: &[u16], id: u64) -> bool
    requires { AreRows survey.now }
    ensures yes { IsTrue result → ShowsForeign (surveyed survey.now) disks.now id }
    ensures no { IsFalse result → ShowsForeign (surveyed survey.now) disks.now id → ⊥ }
{
    for row in survey.rows.as_slice() {
        if is_in(disks, row.disk) && is_foreign(row, id) {
            return true;
        }
    }
    false
}

// Whether the disk of the row shows another group.
fn is_foreign(row: &SurveyRow, id: u64) -> bool
    ensures { IsTrue result ↔ HasForeign row.now id }
{
    match &row.descriptor {
        Some(group) => group.id != id,
        None => false,
    }
}

// The last moment of a record on these disks, 0 where they show none.
fn last_epoch(survey: &Survey, disks: &[u16]) -> u64
    requires { AreRows survey.now }
    ensures all { ShowsUpTo (surveyed survey.now) disks.now result }
    ensures one { (result ≡ 0) ⊎ ShowsEpoch (surveyed survey.now) disks.now result }
{
    let mut last: u64 = 0;
    for row in survey.rows.as_slice() {
        if is_in(disks, row.disk) {
            last = last.max(last_of(row));
        }
    }
    last
}

// The last moment of a record of the row, 0 where it has none.
fn last_of(row: &SurveyRow) -> u64
    ensures { IsLastOf row.now result }
{
    let status: u64 = if row.status.is_some() {
        row.status_stamp.epoch
    } else {
        0
    };
    if row.descriptor.is_some() {
        status.max(row.descriptor_stamp.epoch)
    } else {
        status
    }
}
