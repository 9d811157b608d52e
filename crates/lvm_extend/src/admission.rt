//! A disk gets both records of the group that it is to join, before any other has them.
ghost use Rattle.std.specs.Prelude.{◌≡◌, ◌≢◌, ◌<◌, ◌≤◌, length};
ghost use Rattle.lvm_num.specs.Record.{longest_content};
ghost use Rattle.lvm_disk.specs.Device.{IsReady};
ghost use Rattle.lvm_kept.specs.Torn.{IsOfRecord};
ghost use Rattle.lvm_write.specs.Writes.{DiskWritesLeave};
ghost use Rattle.lvm_write.specs.Written.{HasRoom, write_of};
ghost use Rattle.lvm_extend.specs.Admission.{alone, MayAdmit, PutEnds, Admits};

use lvm_change::{Transition, next_stamp};
use lvm_disk::Shelf;
use lvm_num::{DiskSet, Kind, Pbuf, Stamp};
use lvm_rec::Homes;
use lvm_write::below::Patience;
use lvm_write::{Wrote, write_record};

/// How the writes to one disk ended. The buffer comes back where nothing is out and the power is on.
#[derive(Drop)]
pub enum Admitted {
    /// What was written stands.
    Done(Pbuf),
    /// A transfer failed.
    Failed(Pbuf),
    /// The power was cut, and is off.
    Dark,
    /// Nothing was heard of a transfer until the patience had run out.
    Stuck,
}

/// Writes the status to a disk that is to join the group, and then the next descriptor, under the next two stamps. It takes no memory.
pub fn admit<S: Shelf>(
    shelf: &mut S,
    turn: Transition<'_>,
    disk: u16,
    stamp: Stamp,
    homes: &mut Homes,
    buf: Pbuf,
    patience: &mut Patience,
) -> Admitted
    requires may { MayAdmit turn disk stamp (S.device shelf.old) }
    ensures { Admits turn.entry disk stamp homes.old homes.new buf.number patience.old.left patience.new.left (S.device shelf.old) (S.device shelf.new) result }
{
    let first = next_stamp(stamp);
    match put(
        shelf,
        Kind::Status,
        first,
        turn.status,
        disk,
        homes,
        buf,
        patience,
    ) {
        Admitted::Done(buf) => put(
            shelf,
            Kind::Descriptor,
            next_stamp(first),
            turn.content,
            disk,
            homes,
            buf,
            patience,
        ),
        stopped => stopped,
    }
}

// Writes one record to the disk.
fn put<S: Shelf>(
    shelf: &mut S,
    kind: Kind,
    stamp: Stamp,
    content: &[u8],
    disk: u16,
    homes: &mut Homes,
    buf: Pbuf,
    patience: &mut Patience,
) -> Admitted
    requires ready { IsReady (S.device shelf.old) }
    requires stamp { (stamp.epoch ≢ 0) × (stamp.seq ≢ 0) }
    requires fits { length content.now ≤ longest_content kind }
    requires low { disk < 128 }
    requires room { HasRoom (S.device shelf.old) disk }
    ensures ends { PutEnds (write_of kind (record { stamp = stamp; content = content.now }) (alone disk) homes.old) homes.old homes.new disk buf.number patience.old.left (S.device shelf.old) (S.device shelf.new) result }
    ensures leaves { DiskWritesLeave (alone disk) (IsOfRecord (write_of kind (record { stamp = stamp; content = content.now }) (alone disk) homes.old)) patience.old.left patience.new.left (S.device shelf.old) (S.device shelf.new) }
{
    let own = DiskSet::empty().with(disk);
    match write_record(shelf, kind, stamp, content, own, homes, buf, patience) {
        Wrote::Ended { failed, buf } => {
            if failed.has(disk) {
                Admitted::Failed(buf)
            } else {
                Admitted::Done(buf)
            }
        }
        Wrote::Dark => Admitted::Dark,
        Wrote::Stuck => Admitted::Stuck,
    }
}
