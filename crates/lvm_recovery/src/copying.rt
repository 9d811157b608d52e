//! Runs of 256 sectors are copied between disks, one after another.
ghost use Rattle.std.specs.Prelude.{All};
ghost use Rattle.lvm_disk.specs.Device.{IsReady};
ghost use Rattle.lvm_recovery.specs.Copying.{IsFull, StepGives, CopyGives, AllGive, MayTransfer, MayCopy, AreApart};

use lvm_disk::Shelf;
use lvm_num::{BUFFER_SECTORS, Pbuf, Place};
use lvm_transfer::{Moved, Patience, transfer};
use lvm_write::Begun;

/// 256 sectors that are to be copied, and where to.
#[derive(Clone, Copy)]
pub struct Recopy {
    pub from: Place,
    pub into: Place,
}

/// Makes these copies one after another, each by a read and a write, up to the first transfer that doesn't end
/// well. It takes no memory.
pub fn copy_all<S: Shelf>(
    shelf: &mut S,
    copies: &[Recopy],
    buf: Pbuf,
    patience: &mut Patience,
) -> Begun
    requires ready { IsReady (S.device shelf.old) }
    requires full { IsFull buf }
    requires ranges { All (MayCopy (S.device shelf.old).sizes) copies.now }
    requires apart { AreApart copies.now }
    ensures gives { AllGive copies.now buf.number patience.old.left patience.new.left (S.device shelf.old) (S.device shelf.new) result }
{
    let mut buf = buf;
    for one in copies {
        match make_copy(shelf, one, buf, patience) {
            Begun::Ended { buf: back } => buf = back,
            stopped => return stopped,
        }
    }
    Begun::Ended { buf }
}

// Makes one copy.
fn make_copy<S: Shelf>(shelf: &mut S, one: &Recopy, buf: Pbuf, patience: &mut Patience) -> Begun
    requires ready { IsReady (S.device shelf.old) }
    requires full { IsFull buf }
    requires range { MayCopy (S.device shelf.old).sizes one.now }
    ensures gives { CopyGives one.now buf.number patience.old.left patience.new.left (S.device shelf.old) (S.device shelf.new) result }
{
    let read = step(shelf, false, one.from, buf, patience);
    let Begun::Ended { buf } = read else {
        return read;
    };
    step(shelf, true, one.into, buf, patience)
}

// Reads or writes 256 sectors of a disk's data.
fn step<S: Shelf>(
    shelf: &mut S,
    write: bool,
    place: Place,
    buf: Pbuf,
    patience: &mut Patience,
) -> Begun
    requires ready { IsReady (S.device shelf.old) }
    requires full { IsFull buf }
    requires range { MayTransfer (S.device shelf.old).sizes place }
    ensures gives { StepGives write place buf patience.old.left patience.new.left (S.device shelf.old) (S.device shelf.new) result }
{
    match transfer(
        shelf,
        write,
        place.disk,
        place.sector,
        BUFFER_SECTORS,
        buf,
        patience,
    ) {
        Moved::Done(buf) => Begun::Ended { buf },
        Moved::Failed(buf) => Begun::DiskFailed {
            disk: place.disk,
            buf,
        },
        Moved::Dark { started: _ } => Begun::Dark,
        Moved::Stuck => Begun::Stuck,
    }
}
