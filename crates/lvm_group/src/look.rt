//! The disks are read, and what they show is judged.
ghost use Rattle.std.specs.Prelude.{◌≢◌};
ghost use Rattle.lvm_disk.specs.Device.{IsReady};
ghost use Rattle.lvm_transfer.specs.Reading.{OnlyReads};
ghost use Rattle.lvm_group.specs.Steps.{LookGives};

use crate::below::Cause;
use crate::judge::judge;
use lvm_disk::Shelf;
use lvm_num::Pbuf;
use lvm_quorum::{Surveyed, survey_disks};
use lvm_rec::Homes;
use lvm_transfer::Patience;
use lvm_write::homes_of;
use std::alloc::Global;

// The number of the buffer in which records are read and written.
const BUFFER: u32 = 0;

/// What a group is begun with on disks that let one be made: the slots that come next, and a buffer.
#[derive(Drop)]
pub struct Free {
    pub homes: Homes,
    pub buf: Pbuf,
}

/// Reads the records of all disks, and judges whether a group may be made of them at the moment.
pub fn look<S: Shelf>(
    alloc: Global,
    shelf: &mut S,
    force: bool,
    moment: u64,
    patience: &mut Patience,
) -> Result<Free, Cause>
    requires ready { IsReady (S.device shelf.old) }
    requires moment { moment ≢ 0 }
    ensures gives { LookGives force moment patience.old.left (S.device shelf.old) (S.device shelf.new) result }
    ensures only { OnlyReads patience.old.left patience.new.left (S.device shelf.old) (S.device shelf.new) }
{
    let Ok(buf) = Pbuf::fresh(alloc, BUFFER) else {
        return Err(Cause::Memory);
    };
    match survey_disks(alloc, shelf, buf, patience) {
        Surveyed::Ended { survey, buf } => {
            judge(&survey, force, moment)?;
            Ok(Free {
                homes: homes_of(&survey),
                buf,
            })
        }
        Surveyed::Dark => Err(Cause::Dark),
        Surveyed::Stuck => Err(Cause::Stuck),
        Surveyed::Memory { buf: _ } => Err(Cause::Memory),
    }
}
