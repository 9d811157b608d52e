//! The writes with which a group comes on: of its notes, its status and its descriptor.
ghost use Rattle.std.specs.Prelude.{◌≢◌, ◌<◌, ◌≤◌, length};
ghost use Rattle.lvm_num.specs.declared.record.Kind.TheVariants as kind;
ghost use Rattle.lvm_num.specs.Disks.{has};
ghost use Rattle.lvm_num.specs.Record.{longest_content};
ghost use Rattle.lvm_disk.specs.Device.{IsReady};
ghost use Rattle.lvm_kept.specs.Torn.{IsOfNote, IsOfRecord};
ghost use Rattle.lvm_rec.specs.Homes.{Flips};
ghost use Rattle.lvm_write.specs.Notes.{empty_note_sector, NoteTold};
ghost use Rattle.lvm_write.specs.Written.{write_of, StandsTold, HaveRoom};
ghost use Rattle.lvm_write.specs.Writes.{DiskWritesLeave};
ghost use Rattle.lvm_write.specs.Beginning.{new_beginning, again_beginning, new_order, again_order, IsOfParts};
ghost use Rattle.lvm_write.specs.Ends.{IfBegun, BothFlip, BeginEnds};
ghost use Rattle.lvm_write.specs.Kept.{NewStaysKept, AgainStaysKept};
ghost use Rattle.lvm_write.specs.Runs.{IsAnswer, OneGives, ManyGives};

use crate::below::Patience;
use crate::notes::empty_notes;
use crate::write::{Wrote, write_record};
use lvm_disk::Shelf;
use lvm_num::{DiskSet, Kind, Pbuf, Stamp};
use lvm_rec::Homes;

/// How the writes with which a group comes on ended.
#[derive(Drop)]
pub enum Begun {
    /// All of them stand on each disk.
    Ended { buf: Pbuf },
    /// One of them failed on some disks, of which this is the lowest. It was tried on the others too, and those
    /// behind it weren't begun.
    DiskFailed { disk: u16, buf: Pbuf },
    /// The power was cut, and is off.
    Dark,
    /// Nothing was heard of a transfer until the patience had run out.
    Stuck,
}

/// Writes what a new group begins with, on each target: a note without entries, the status under sequence 1 and
/// then the descriptor under sequence 2 of the epoch. What is handed in are the bytes of the two records. It takes
/// no memory.
pub fn begin_new<S: Shelf>(
    shelf: &mut S,
    descriptor: &[u8],
    status: &[u8],
    epoch: u64,
    targets: DiskSet,
    homes: &mut Homes,
    buf: Pbuf,
    patience: &mut Patience,
) -> Begun
    requires ready { IsReady (S.device shelf.old) }
    requires epoch { epoch ≢ 0 }
    requires descriptor { length descriptor.now ≤ longest_content kind.Descriptor }
    requires status { length status.now ≤ longest_content kind.Status }
    requires targets { HaveRoom (S.device shelf.old) (has targets) }
    ensures ends { let b = new_beginning epoch descriptor.now status.now (has targets) homes.old in BeginEnds b new_order buf.number patience.old.left homes.new (S.device shelf.old) (S.device shelf.new) result }
    ensures leaves { let b = new_beginning epoch descriptor.now status.now (has targets) homes.old in DiskWritesLeave (has targets) (IsOfParts b new_order) patience.old.left patience.new.left (S.device shelf.old) (S.device shelf.new) }
    ensures kept { let b = new_beginning epoch descriptor.now status.now (has targets) homes.old in NewStaysKept b (S.device shelf.old) (S.device shelf.new) }
{
    write_new(
        shelf, descriptor, status, epoch, targets, homes, buf, patience,
    )
}

/// Writes what a further session of a group begins with, on each target: the descriptor under sequence 1 and the
/// status under sequence 2 of the epoch, and then, with `forget`, a note without entries: only a group without volumes
/// in mode active may forget its notes. What is handed in are the bytes of the two records. It takes no memory.
pub fn begin_again<S: Shelf>(
    shelf: &mut S,
    descriptor: &[u8],
    status: &[u8],
    epoch: u64,
    targets: DiskSet,
    forget: bool,
    homes: &mut Homes,
    buf: Pbuf,
    patience: &mut Patience,
) -> Begun
    requires ready { IsReady (S.device shelf.old) }
    requires epoch { epoch ≢ 0 }
    requires descriptor { length descriptor.now ≤ longest_content kind.Descriptor }
    requires status { length status.now ≤ longest_content kind.Status }
    requires targets { HaveRoom (S.device shelf.old) (has targets) }
    ensures ends { let b = again_beginning epoch descriptor.now status.now (has targets) homes.old in BeginEnds b (again_order forget) buf.number patience.old.left homes.new (S.device shelf.old) (S.device shelf.new) result }
    ensures leaves { let b = again_beginning epoch descriptor.now status.now (has targets) homes.old in DiskWritesLeave (has targets) (IsOfParts b (again_order forget)) patience.old.left patience.new.left (S.device shelf.old) (S.device shelf.new) }
    ensures kept { let b = again_beginning epoch descriptor.now status.now (has targets) homes.old in AgainStaysKept b forget (S.device shelf.old) (S.device shelf.new) }
{
    write_again(
        shelf, descriptor, status, epoch, targets, forget, homes, buf, patience,
    )
}

// The parts of a new group, in their order.
fn write_new<S: Shelf>(
    shelf: &mut S,
    descriptor: &[u8],
    status: &[u8],
    epoch: u64,
    targets: DiskSet,
    homes: &mut Homes,
    buf: Pbuf,
    patience: &mut Patience,
) -> Begun
    requires ready { IsReady (S.device shelf.old) }
    requires epoch { epoch ≢ 0 }
    requires descriptor { length descriptor.now ≤ longest_content kind.Descriptor }
    requires status { length status.now ≤ longest_content kind.Status }
    requires targets { HaveRoom (S.device shelf.old) (has targets) }
    ensures gives { let b = new_beginning epoch descriptor.now status.now (has targets) homes.old in ManyGives b new_order buf.number patience.old.left patience.new.left (S.device shelf.old) (S.device shelf.new) result }
    ensures homes { IfBegun result (λ back. BothFlip (has targets) homes.old homes.new) }
{
    let buf = match forget_notes(shelf, epoch, targets, buf, patience) {
        Begun::Ended { buf } => buf,
        stopped => return stopped,
    };
    let of_status = Stamp { epoch, seq: 1 };
    let buf = match put_record(
        shelf,
        Kind::Status,
        of_status,
        status,
        targets,
        homes,
        buf,
        patience,
    ) {
        Begun::Ended { buf } => buf,
        stopped => return stopped,
    };
    let of_descriptor = Stamp { epoch, seq: 2 };
    put_record(
        shelf,
        Kind::Descriptor,
        of_descriptor,
        descriptor,
        targets,
        homes,
        buf,
        patience,
    )
}

// Those of a group that was there.
fn write_again<S: Shelf>(
    shelf: &mut S,
    descriptor: &[u8],
    status: &[u8],
    epoch: u64,
    targets: DiskSet,
    forget: bool,
    homes: &mut Homes,
    buf: Pbuf,
    patience: &mut Patience,
) -> Begun
    requires ready { IsReady (S.device shelf.old) }
    requires epoch { epoch ≢ 0 }
    requires descriptor { length descriptor.now ≤ longest_content kind.Descriptor }
    requires status { length status.now ≤ longest_content kind.Status }
    requires targets { HaveRoom (S.device shelf.old) (has targets) }
    ensures gives { let b = again_beginning epoch descriptor.now status.now (has targets) homes.old in ManyGives b (again_order forget) buf.number patience.old.left patience.new.left (S.device shelf.old) (S.device shelf.new) result }
    ensures homes { IfBegun result (λ back. BothFlip (has targets) homes.old homes.new) }
{
    let of_descriptor = Stamp { epoch, seq: 1 };
    let buf = match put_record(
        shelf,
        Kind::Descriptor,
        of_descriptor,
        descriptor,
        targets,
        homes,
        buf,
        patience,
    ) {
        Begun::Ended { buf } => buf,
        stopped => return stopped,
    };
    let of_status = Stamp { epoch, seq: 2 };
    let buf = match put_record(
        shelf,
        Kind::Status,
        of_status,
        status,
        targets,
        homes,
        buf,
        patience,
    ) {
        Begun::Ended { buf } => buf,
        stopped => return stopped,
    };
    if forget {
        forget_notes(shelf, epoch, targets, buf, patience)
    } else {
        Begun::Ended { buf }
    }
}

/// Writes a note without entries to each target, under the epoch. Where one of them failed the others were tried too,
/// and the lowest that failed is told. It takes no memory.
pub fn forget_notes<S: Shelf>(
    shelf: &mut S,
    epoch: u64,
    targets: DiskSet,
    buf: Pbuf,
    patience: &mut Patience,
) -> Begun
    requires ready { IsReady (S.device shelf.old) }
    requires targets { HaveRoom (S.device shelf.old) (has targets) }
    ensures gives { OneGives (has targets) (IsOfNote (has targets) (empty_note_sector epoch)) (NoteTold (empty_note_sector epoch)) buf.number patience.old.left patience.new.left (S.device shelf.old) (S.device shelf.new) result }
{
    let wrote = empty_notes(shelf, epoch, targets, buf, patience);
    all_or_lowest(wrote)
}

/// Writes one record on each target, in the slot that doesn't hold its newest one. What is handed in are the stamp,
/// of which neither part may be 0, and the bytes of the content. It takes no memory.
pub fn put_record<S: Shelf>(
    shelf: &mut S,
    kind: Kind,
    stamp: Stamp,
    content: &[u8],
    targets: DiskSet,
    homes: &mut Homes,
    buf: Pbuf,
    patience: &mut Patience,
) -> Begun
    requires ready { IsReady (S.device shelf.old) }
    requires stamp { (stamp.epoch ≢ 0) × (stamp.seq ≢ 0) }
    requires fits { length content.now ≤ longest_content kind }
    requires targets { HaveRoom (S.device shelf.old) (has targets) }
    ensures gives { let w = write_of kind (record { stamp = stamp; content = content.now }) (has targets) homes.old in OneGives (has targets) (IsOfRecord w) (StandsTold w) buf.number patience.old.left patience.new.left (S.device shelf.old) (S.device shelf.new) result }
    ensures homes { IfBegun result (λ back. Flips kind (has targets) homes.old homes.new) }
{
    let wrote = write_record(shelf, kind, stamp, content, targets, homes, buf, patience);
    all_or_lowest(wrote)
}

// How a write to several disks ended: on all of them well, or the lowest on which it failed.
fn all_or_lowest(wrote: Wrote) -> Begun
    ensures { IsAnswer wrote result }
{
    match wrote {
        Wrote::Ended { failed, buf } => match failed.lowest() {
            None => Begun::Ended { buf },
            Some(disk) => Begun::DiskFailed { disk, buf },
        },
        Wrote::Dark => Begun::Dark,
        Wrote::Stuck => Begun::Stuck,
    }
}
