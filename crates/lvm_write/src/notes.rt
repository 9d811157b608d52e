//! The consistency records of several disks are emptied, one transfer at a time.
ghost use Rattle.std.specs.Prelude.{IsTrue};
ghost use Rattle.lvm_num.specs.Disks.{Disks, has};
ghost use Rattle.lvm_disk.specs.Device.{IsReady};
ghost use Rattle.lvm_quorum.specs.passed.Transfer.{IsOfNote};
ghost use Rattle.lvm_write.specs.Notes.{empty_note_sector, NoteTold};
ghost use Rattle.lvm_write.specs.Parts.{DoesPart, IfMoved};
ghost use Rattle.lvm_write.specs.Written.{HasRoom, HaveRoom};
ghost use Rattle.lvm_write.specs.Writes.{DiskWritesLeave, DiskWritesEnd};

use crate::write::Wrote;
use lvm_disk::Shelf;
use lvm_num::{DiskSet, Pbuf};
use lvm_quorum::below::{Moved, Patience, transfer, write_note};

// The sector of a disk's consistency record.
const NOTE: u64 = 8;

/// Writes a consistency record without entries, under this stamp, to each target in the order of their
/// numbers. The stamp is the epoch of the session that begins. It takes no memory.
pub fn empty_notes<S: Shelf>(
    shelf: &mut S,
    stamp: u64,
    targets: DiskSet,
    buf: Pbuf,
    patience: &mut Patience,
) -> Wrote
    requires ready { IsReady (S.device shelf.old) }
    requires targets { HaveRoom (S.device shelf.old) (has targets) }
    ensures ends { DiskWritesEnd (has targets) (NoteTold (empty_note_sector stamp)) (λ written. Unit {0}) buf.number patience.old.left (S.device shelf.old) (S.device shelf.new) result }
    ensures leaves { DiskWritesLeave (has targets) (IsOfNote (has targets) (empty_note_sector stamp)) patience.old.left patience.new.left (S.device shelf.old) (S.device shelf.new) }
{
    let note = write_note(stamp, &[]);
    let mut failed = DiskSet::empty();
    let mut buf = buf;
    for disk in 0..shelf.disks() {
        if !targets.has(disk) {
            continue;
        }
        match write_sector(shelf, disk, &note, buf, patience) {
            Moved::Done(back) => buf = back,
            Moved::Failed(back) => {
                failed = failed.with(disk);
                buf = back;
            }
            Moved::Dark { .. } => return Wrote::Dark,
            Moved::Stuck => return Wrote::Stuck,
        }
    }
    Wrote::Ended { failed, buf }
}

// Writes the note of one disk.
fn write_sector<S: Shelf>(
    shelf: &mut S,
    disk: u16,
    note: &[u8; 512],
    buf: Pbuf,
    patience: &mut Patience,
) -> Moved
    requires ready { IsReady (S.device shelf.old) }
    requires room { HasRoom (S.device shelf.old) disk }
    ensures part { (targets : Disks) → IsTrue (targets disk) → DoesPart targets (IsOfNote targets note.now) disk buf.number patience.old.left patience.new.left (S.device shelf.old) (S.device shelf.new) result }
    ensures stands { IfMoved result (λ back. NoteTold note.now (S.device shelf.new) disk) }
{
    let mut buf = buf;
    buf.set_sector(0, note);
    transfer(shelf, true, disk, NOTE, 1, buf, patience)
}
