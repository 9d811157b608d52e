//! Whether a disk is in a group.
ghost use Rattle.std.specs.Prelude.{◌≡◌, ◌<◌, ◌≤◌, length, slice_index_or, OnOk, IfErr};
ghost use Rattle.lvm_disk.specs.Device.{IsReady};
ghost use Rattle.lvm_steps.specs.Requests.{at as moment_of};
ghost use Rattle.lvm_raw.specs.Keeping.{RangeKeeps};
ghost use Rattle.lvm_raw.specs.Looking.{FindsNone, LookFails, look_ends};

use crate::fault::RawFault;
use lvm_disk::Shelf;
use lvm_history::History;
use lvm_num::Pbuf;
use lvm_quorum::read_descriptor;
use lvm_transfer::{Patience, Stop, Unread, relight};
use std::alloc::Global;

/// Reads the descriptor slots of a disk that has them, and answers a buffer where the disk is in no group. After a
/// power cut, which is entered where it ends something, the power is on again.
pub fn look<S: Shelf>(
    alloc: Global,
    shelf: &mut S,
    history: &mut History,
    disk: u16,
    patience: &mut Patience,
) -> Result<Pbuf, RawFault>
    requires ready { IsReady (S.device shelf.old) }
    requires there { disk < length (S.device shelf.old).sizes }
    requires large { 4096 ≤ slice_index_or (S.device shelf.old).sizes disk 0 }
    ensures found { OnOk result (FindsNone patience.old.left disk (S.device shelf.old) (S.device shelf.new)) }
    ensures fails { IfErr result (LookFails patience.old.left disk (S.device shelf.old) (S.device shelf.new)) }
    ensures same { OnOk result (history.new ≡ history.old) }
    ensures ends { IfErr result (λ why. history.new ≡ look_ends history.old why) }
    ensures keeps { RangeKeeps history.old.run disk patience.old.left patience.new.left (moment_of (S.device shelf.old) history.old.facts) (moment_of (S.device shelf.new) history.new.facts) result }
{
    let Ok(buf) = Pbuf::fresh(alloc, 0) else {
        return Err(RawFault::Memory);
    };
    match read_descriptor(alloc, shelf, disk, buf, patience) {
        Ok((None, back)) => Ok(back),
        Ok((Some(_), _)) => Err(RawFault::InGroup { disk }),
        Err(Unread::Failed(_)) => Err(RawFault::DiskFailed { disk }),
        Err(Unread::Stopped(Stop::Memory(_))) => Err(RawFault::Memory),
        Err(Unread::Stopped(Stop::Stuck)) => Err(RawFault::Stuck),
        Err(Unread::Stopped(Stop::Dark)) => {
            history.cut();
            relight(shelf);
            Err(RawFault::Dark)
        }
    }
}
