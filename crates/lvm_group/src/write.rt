//! The records of a new group are written.
ghost use Rattle.std.specs.Prelude.{◌≡◌, ◌≢◌, ◌≤◌, length};
ghost use Rattle.lvm_num.specs.declared.record.Kind.TheVariants as kind;
ghost use Rattle.lvm_num.specs.Disks.{has};
ghost use Rattle.lvm_num.specs.Record.{longest_content};
ghost use Rattle.lvm_disk.specs.Device.{IsReady};
ghost use Rattle.lvm_write.specs.Writes.{DiskWritesLeave};
ghost use Rattle.lvm_write.specs.Written.{HaveRoom};
ghost use Rattle.lvm_write.specs.Beginning.{new_beginning, new_order, IsOfParts};
ghost use Rattle.lvm_write.specs.Kept.{NewStaysKept};
ghost use Rattle.lvm_group.specs.Steps.{NewWritesGive};

use crate::below::Cause;
use crate::look::Free;
use crate::plan::Plan;
use lvm_disk::Shelf;
use lvm_num::DiskSet;
use lvm_rec::Homes;
use lvm_transfer::Patience;
use lvm_write::{Begun, begin_new};

/// Writes the records of a planned group to its disks, and answers the slots that come next.
pub fn write<S: Shelf>(
    shelf: &mut S,
    plan: &Plan,
    moment: u64,
    free: Free,
    patience: &mut Patience,
) -> Result<Homes, Cause>
    requires ready { IsReady (S.device shelf.old) }
    requires moment { moment ≢ 0 }
    requires buffer { free.buf.number ≡ 0 }
    requires descriptor { length plan.now.descriptor ≤ longest_content kind.Descriptor }
    requires status { length plan.now.status ≤ longest_content kind.Status }
    requires targets { HaveRoom (S.device shelf.old) (has plan.now.targets) }
    ensures gives { NewWritesGive (new_beginning moment plan.now.descriptor plan.now.status (has plan.now.targets) free.homes) patience.old.left (S.device shelf.old) (S.device shelf.new) result }
    ensures leaves { let b = new_beginning moment plan.now.descriptor plan.now.status (has plan.now.targets) free.homes in DiskWritesLeave b.targets (IsOfParts b new_order) patience.old.left patience.new.left (S.device shelf.old) (S.device shelf.new) }
    ensures kept { NewStaysKept (new_beginning moment plan.now.descriptor plan.now.status (has plan.now.targets) free.homes) (S.device shelf.old) (S.device shelf.new) }
{
    begin(
        shelf,
        plan.descriptor.as_slice(),
        plan.status.as_slice(),
        moment,
        plan.targets,
        free,
        patience,
    )
}

// Writes the records with these bytes to the targets.
fn begin<S: Shelf>(
    shelf: &mut S,
    descriptor: &[u8],
    status: &[u8],
    moment: u64,
    targets: DiskSet,
    free: Free,
    patience: &mut Patience,
) -> Result<Homes, Cause>
    requires ready { IsReady (S.device shelf.old) }
    requires moment { moment ≢ 0 }
    requires buffer { free.buf.number ≡ 0 }
    requires descriptor { length descriptor.now ≤ longest_content kind.Descriptor }
    requires status { length status.now ≤ longest_content kind.Status }
    requires targets { HaveRoom (S.device shelf.old) (has targets) }
    ensures gives { NewWritesGive (new_beginning moment descriptor.now status.now (has targets) free.homes) patience.old.left (S.device shelf.old) (S.device shelf.new) result }
    ensures leaves { let b = new_beginning moment descriptor.now status.now (has targets) free.homes in DiskWritesLeave b.targets (IsOfParts b new_order) patience.old.left patience.new.left (S.device shelf.old) (S.device shelf.new) }
    ensures kept { NewStaysKept (new_beginning moment descriptor.now status.now (has targets) free.homes) (S.device shelf.old) (S.device shelf.new) }
{
    let Free { mut homes, buf } = free;
    match begin_new(
        shelf, descriptor, status, moment, targets, &mut homes, buf, patience,
    ) {
        Begun::Ended { buf: _ } => Ok(homes),
        Begun::DiskFailed { disk, buf: _ } => Err(Cause::DiskFailed { disk }),
        Begun::Dark => Err(Cause::Dark),
        Begun::Stuck => Err(Cause::Stuck),
    }
}
