//! Which groups have a name, by the newest descriptors of the disks.
ghost use Rattle.std.specs.Prelude.{◌≡◌, ◌≢◌, ℕ, IfSome, IfNone, IsTrue, IsFalse, is_some};
ghost use Rattle.lvm_num.specs.Votes.{all_disks};
ghost use Rattle.lvm_quorum.specs.passed.Transfer.{status_among};
ghost use Rattle.lvm_quorum.specs.Reading.{under};
ghost use Rattle.lvm_quorum.specs.Surveyed.{surveyed};
ghost use Rattle.lvm_quorum.specs.Choosing.{HasName, HasRecord, HasNoRecord};
ghost use Rattle.lvm_quorum.specs.Groups.{IsNamedBy};
ghost use Rattle.lvm_quorum.specs.Rows.{AreRows};

use crate::groups::group_of;
use crate::row::{Survey, SurveyRow};
use lvm_num::Name;

/// The first group that has the name.
pub fn first_named(survey: &Survey, name: &Name) -> Option<u64>
    ensures some { IfSome result (HasName (surveyed survey.now) name.now) }
    ensures none { IfNone result ((id : ℕ) → HasName (surveyed survey.now) name.now id → ⊥) }
{
    for row in survey.rows.as_slice() {
        if let Some(id) = named_by(row, name) {
            return Some(id);
        }
    }
    None
}

/// Another group that has the name.
pub fn other_named(survey: &Survey, name: &Name, id: u64) -> Option<u64>
    ensures differs { IfSome result (λ other. id ≢ other) }
    ensures some { IfSome result (HasName (surveyed survey.now) name.now) }
    ensures none { IfNone result ((other : ℕ) → HasName (surveyed survey.now) name.now other → other ≡ id) }
{
    for row in survey.rows.as_slice() {
        if let Some(other) = named_by(row, name) {
            if other != id {
                return Some(other);
            }
        }
    }
    None
}

/// Whether a group that has the name has a status on a voter.
pub fn has_record(survey: &Survey, name: &Name) -> bool
    requires { AreRows survey.now }
    ensures yes { IsTrue result → HasRecord (surveyed survey.now) name.now }
    ensures no { IsFalse result → HasNoRecord (surveyed survey.now) name.now }
{
    for row in survey.rows.as_slice() {
        if let Some(id) = named_by(row, name) {
            if has_status(survey, id) {
                return true;
            }
        }
    }
    false
}

// Whether a voter of the group has a status.
fn has_status(survey: &Survey, id: u64) -> bool
    requires { AreRows survey.now }
    ensures { result ≡ is_some (status_among (surveyed survey.now) all_disks id) }
{
    match group_of(survey, id) {
        Some(group) => group.status.is_some(),
        None => false,
    }
}

// The group to which the disk's newest descriptor gives the name.
fn named_by(row: &SurveyRow, name: &Name) -> Option<u64>
    ensures some { IfSome result (IsNamedBy (under row.now.descriptor row.now.descriptor_stamp) name.now) }
    ensures none { IfNone result ((id : ℕ) → IsNamedBy (under row.now.descriptor row.now.descriptor_stamp) name.now id → ⊥) }
{
    let descriptor = row.descriptor.as_ref()?;
    if descriptor.name == *name {
        Some(descriptor.id)
    } else {
        None
    }
}
