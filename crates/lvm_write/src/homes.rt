//! To which slot of each disk its next record goes after what was found.
ghost use Rattle.std.specs.Prelude.{◌≡◌, ℕ};
ghost use Rattle.lvm_num.specs.declared.record.Kind.{Kind};
ghost use Rattle.lvm_num.specs.Disks.{has};
ghost use Rattle.lvm_quorum.specs.passed.Transfer.{second_slots};
ghost use Rattle.lvm_write.specs.Homes.{home_by, in_first_slot, SpareNewest};
ghost use Rattle.lvm_quorum.specs.Rows.{AreRows};

use lvm_num::{DiskSet, Kind};
use lvm_quorum::below::Homes;
use lvm_quorum::{Survey, SurveyRow};

/// The slots that come next after what was found: slot 1 where the newest record stands in slot 0,
/// else slot 0.
pub fn homes_of(survey: &Survey) -> Homes
    requires { AreRows survey.now }
    ensures next { (kind : Kind) (d : ℕ) → second_slots kind result d ≡ in_first_slot kind survey.now d }
    ensures spare { SpareNewest survey.now result }
{
    Homes {
        descriptor: in_first_slot(survey, Kind::Descriptor),
        status: in_first_slot(survey, Kind::Status),
    }
}

// The disks whose newest record of the kind stands in slot 0.
fn in_first_slot(survey: &Survey, kind: Kind) -> DiskSet
    requires { AreRows survey.now }
    ensures { (d : ℕ) → has result d ≡ in_first_slot kind survey.now d }
{
    let mut disks = DiskSet::empty();
    for row in survey.rows.as_slice() {
        if home(row, kind) == 0 {
            disks = disks.with(row.disk);
        }
    }
    disks
}

// The slot with the newest record of the kind, 2 where there is none.
fn home(row: &SurveyRow, kind: Kind) -> u8
    ensures { result ≡ home_by kind row.now }
{
    match kind {
        Kind::Descriptor => row.homes[0],
        Kind::Status => row.homes[1],
    }
}
