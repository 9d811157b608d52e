//! The reading of a shelf, and the writes of a varyon.
ghost use Rattle.std.specs.Prelude.{false, ◌≢◌, ◌≤◌, length};
ghost use Rattle.lvm_num.specs.declared.record.Kind.TheVariants as kind;
ghost use Rattle.lvm_num.specs.Disks.{has};
ghost use Rattle.lvm_num.specs.Record.{longest_content};
ghost use Rattle.lvm_disk.specs.Device.{IsReady};
ghost use Rattle.lvm_write.specs.Written.{HaveRoom};
ghost use Rattle.lvm_write.specs.Beginning.{again_beginning, again_order, IsOfParts};
ghost use Rattle.lvm_write.specs.Kept.{AgainStaysKept};
ghost use Rattle.lvm_write.specs.Writes.{DiskWritesLeave};
ghost use Rattle.lvm_transfer.specs.Reading.{OnlyReads};
ghost use Rattle.lvm_write.specs.Parts.{Spends};
ghost use Rattle.lvm_varyon.specs.passed.Recovery.{EqualisedStaysKept};
ghost use Rattle.lvm_varyon.specs.Copied.{all_copies};
ghost use Rattle.lvm_varyon.specs.Equal.{EqualGives, MayMakeEqual};
ghost use Rattle.lvm_varyon.specs.Parts.{SurveyGives, plan_beginning, AgainWritesGive};

use crate::below::{Cause, equalise};
use crate::plan::Plan;
use lvm_disk::Shelf;
use lvm_num::{DiskSet, Pbuf};
use lvm_quorum::{Survey, Surveyed, survey_disks};
use lvm_rec::Homes;
use lvm_transfer::Patience;
use lvm_write::{Begun, begin_again};
use std::alloc::Global;

/// Reads the records of all disks. The buffer that it read with comes back for the writes.
pub fn read_disks<S: Shelf>(
    alloc: Global,
    shelf: &mut S,
    patience: &mut Patience,
) -> Result<(Survey, Pbuf), Cause>
    requires ready { IsReady (S.device shelf.old) }
    ensures gives { SurveyGives patience.old.left (S.device shelf.old) (S.device shelf.new) result }
    ensures only { OnlyReads patience.old.left patience.new.left (S.device shelf.old) (S.device shelf.new) }
{
    let Ok(buf) = Pbuf::fresh(alloc, 0) else {
        return Err(Cause::Memory);
    };
    match survey_disks(alloc, shelf, buf, patience) {
        Surveyed::Ended { survey, buf } => Ok((survey, buf)),
        Surveyed::Dark => Err(Cause::Dark),
        Surveyed::Stuck => Err(Cause::Stuck),
        Surveyed::Memory { buf: _ } => Err(Cause::Memory),
    }
}

/// Writes the descriptor and the status of a plan to its targets. The slots that come next come back, and the buffer.
pub fn write_plan<S: Shelf>(
    shelf: &mut S,
    plan: &Plan,
    moment: u64,
    buf: Pbuf,
    patience: &mut Patience,
) -> Result<(Homes, Pbuf), Cause>
    requires ready { IsReady (S.device shelf.old) }
    requires moment { moment ≢ 0 }
    requires descriptor { length plan.now.descriptor ≤ longest_content kind.Descriptor }
    requires status { length plan.now.status ≤ longest_content kind.Status }
    requires targets { HaveRoom (S.device shelf.old) (has plan.now.targets) }
    ensures gives { AgainWritesGive patience.old.left (plan_beginning moment plan.now) (again_order false) (S.device shelf.old) (S.device shelf.new) result }
    ensures leaves { DiskWritesLeave (has plan.now.targets) (IsOfParts (plan_beginning moment plan.now) (again_order false)) patience.old.left patience.new.left (S.device shelf.old) (S.device shelf.new) }
    ensures kept { AgainStaysKept (plan_beginning moment plan.now) false (S.device shelf.old) (S.device shelf.new) }
{
    write_records(
        shelf,
        plan.descriptor.as_slice(),
        plan.status.as_slice(),
        moment,
        plan.targets,
        plan.homes,
        buf,
        patience,
    )
}

// Writes the records with these bytes to the targets.
fn write_records<S: Shelf>(
    shelf: &mut S,
    descriptor: &[u8],
    status: &[u8],
    moment: u64,
    targets: DiskSet,
    homes: Homes,
    buf: Pbuf,
    patience: &mut Patience,
) -> Result<(Homes, Pbuf), Cause>
    requires ready { IsReady (S.device shelf.old) }
    requires moment { moment ≢ 0 }
    requires descriptor { length descriptor.now ≤ longest_content kind.Descriptor }
    requires status { length status.now ≤ longest_content kind.Status }
    requires targets { HaveRoom (S.device shelf.old) (has targets) }
    ensures gives { let b = again_beginning moment descriptor.now status.now (has targets) homes in AgainWritesGive patience.old.left b (again_order false) (S.device shelf.old) (S.device shelf.new) result }
    ensures leaves { let b = again_beginning moment descriptor.now status.now (has targets) homes in DiskWritesLeave (has targets) (IsOfParts b (again_order false)) patience.old.left patience.new.left (S.device shelf.old) (S.device shelf.new) }
    ensures kept { let b = again_beginning moment descriptor.now status.now (has targets) homes in AgainStaysKept b false (S.device shelf.old) (S.device shelf.new) }
{
    let mut homes = homes;
    match begin_again(
        shelf, descriptor, status, moment, targets, false, &mut homes, buf, patience,
    ) {
        Begun::Ended { buf } => Ok((homes, buf)),
        Begun::DiskFailed { disk, buf: _ } => Err(Cause::DiskFailed { disk }),
        Begun::Dark => Err(Cause::Dark),
        Begun::Stuck => Err(Cause::Stuck),
    }
}

/// Makes the copies of a plan, writes its second status, if it has one, and then empties the notes of its targets. The
/// slots that come next come back.
pub fn make_equal<S: Shelf>(
    shelf: &mut S,
    plan: &Plan,
    moment: u64,
    homes: Homes,
    buf: Pbuf,
    patience: &mut Patience,
) -> Result<Homes, Cause>
    requires ready { IsReady (S.device shelf.old) }
    requires moment { moment ≢ 0 }
    requires may { MayMakeEqual (S.device shelf.old) plan.now }
    ensures gives { EqualGives patience.old.left (all_copies plan.now) plan.now.second moment (has plan.now.targets) homes (S.device shelf.old) (S.device shelf.new) result }
    ensures spends { Spends patience.old.left patience.new.left (S.device shelf.old) (S.device shelf.new) }
    ensures kept { EqualisedStaysKept (all_copies plan.now) plan.now.second moment (has plan.now.targets) homes (S.device shelf.old) (S.device shelf.new) }
{
    let mut homes = homes;
    match equalise(
        shelf,
        plan.copying.copies.as_slice(),
        plan.parts.descriptor(),
        &plan.copying.table,
        &plan.second,
        moment,
        plan.targets,
        &mut homes,
        buf,
        patience,
    ) {
        Begun::Ended { buf: _ } => Ok(homes),
        Begun::DiskFailed { disk, buf: _ } => Err(Cause::DiskFailed { disk }),
        Begun::Dark => Err(Cause::Dark),
        Begun::Stuck => Err(Cause::Stuck),
    }
}
