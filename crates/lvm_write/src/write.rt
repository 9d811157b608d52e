//! A record is written to several disks, one transfer at a time.
ghost use Rattle.std.specs.Prelude.{◌≡◌, ◌≢◌, ◌+◌, ◌<◌, ◌≤◌, ℕ, length, Some, slice_get, if◌then◌else◌};
ghost use Rattle.lvm_num.specs.Disks.{has};
ghost use Rattle.lvm_num.specs.Record.{frame, longest_content, record_sectors, slot_start};
ghost use Rattle.lvm_disk.specs.Device.{IsReady};
ghost use Rattle.lvm_quorum.specs.passed.Transfer.{IsOfRecord};
ghost use Rattle.lvm_write.specs.Written.{write_of, HasRoom, HaveRoom};
ghost use Rattle.lvm_write.specs.Parts.{write_to, PartsStand, IfMoved, WritesPart};
ghost use Rattle.lvm_write.specs.Writes.{DiskWritesLeave, RecordWritesEnd};

use lvm_disk::Shelf;
use lvm_num::{BUFFER_SECTORS, DiskSet, Kind, Pbuf, Stamp};
use lvm_quorum::below::{Homes, Moved, Patience, frame, slot_sectors, transfer};

/// How a write of a record to several disks ended.
#[derive(Drop)]
pub enum Wrote {
    /// It was tried on each disk, and on these it failed. On the others all of it stands.
    Ended { failed: DiskSet, buf: Pbuf },
    /// The power was cut, and is off.
    Dark,
    /// Nothing was heard of a transfer until the patience had run out.
    Stuck,
}

/// Writes a record to each target, in the order of their numbers and in pieces of 256 sectors, to
/// the slot that `homes` names. After a piece that failed the rest of that disk's record is left out,
/// and its slot stays. It takes no memory.
pub fn write_record<S: Shelf>(
    shelf: &mut S,
    kind: Kind,
    stamp: Stamp,
    content: &[u8],
    targets: DiskSet,
    homes: &mut Homes,
    buf: Pbuf,
    patience: &mut Patience,
) -> Wrote
    requires ready { IsReady (S.device shelf.old) }
    requires stamp { (stamp.epoch ≢ 0) × (stamp.seq ≢ 0) }
    requires fits { length content.now ≤ longest_content kind }
    requires targets { HaveRoom (S.device shelf.old) (has targets) }
    ensures ends { RecordWritesEnd (write_of kind (record { stamp = stamp; content = content.now }) (has targets) homes.old) homes.old homes.new buf.number patience.old.left (S.device shelf.old) (S.device shelf.new) result }
    ensures leaves { let w = write_of kind (record { stamp = stamp; content = content.now }) (has targets) homes.old in DiskWritesLeave w.targets (IsOfRecord w) patience.old.left patience.new.left (S.device shelf.old) (S.device shelf.new) }
{
    let mut failed = DiskSet::empty();
    let mut buf = buf;
    for disk in 0..shelf.disks() {
        if !targets.has(disk) {
            continue;
        }
        let one = SlotWrite {
            kind,
            stamp,
            content,
            disk,
            second: homes.is_second(kind, disk),
        };
        match write_slot(shelf, one, buf, patience) {
            Moved::Done(back) => {
                homes.flip(kind, disk);
                buf = back;
            }
            Moved::Failed(back) => {
                failed = failed.with(disk);
                buf = back;
            }
            Moved::Dark { .. } => return Wrote::Dark,
            Moved::Stuck => return Wrote::Stuck,
        }
    }
    Wrote::Ended { failed, buf }
}

/// A record, and the slot of one disk that it goes to.
#[derive(Clone, Copy)]
struct SlotWrite<'a> {
    kind: Kind,
    stamp: Stamp,
    content: &'a [u8],
    disk: u16,
    second: bool,
}

// Writes all of the record to the slot, or as much as goes well.
fn write_slot<S: Shelf>(
    shelf: &mut S,
    one: SlotWrite<'_>,
    buf: Pbuf,
    patience: &mut Patience,
) -> Moved
    requires ready { IsReady (S.device shelf.old) }
    requires fits { length one.content.now ≤ longest_content one.kind }
    requires room { HasRoom (S.device shelf.old) one.disk }
    ensures part { WritesPart (write_to one.entry) one.entry.disk buf.number patience.old.left patience.new.left (S.device shelf.old) (S.device shelf.new) result }
    ensures stands { IfMoved result (λ back. PartsStand (write_to one.entry) (S.device shelf.new) one.entry.disk 0 (record_sectors (length one.entry.content.now))) }
{
    let sectors = slot_sectors(one.content.len());
    let mut buf = buf;
    let mut first = 0;
    while first < sectors {
        let count = (sectors - first).min(BUFFER_SECTORS);
        match write_piece(shelf, one, first, count, buf, patience) {
            Moved::Done(back) => buf = back,
            ended => return ended,
        }
        first += count;
    }
    Moved::Done(buf)
}

// Writes so many sectors of the record, from one of them on.
fn write_piece<S: Shelf>(
    shelf: &mut S,
    one: SlotWrite<'_>,
    first: u32,
    count: u32,
    buf: Pbuf,
    patience: &mut Patience,
) -> Moved
    requires ready { IsReady (S.device shelf.old) }
    requires fits { length one.content.now ≤ longest_content one.kind }
    requires room { HasRoom (S.device shelf.old) one.disk }
    requires some { 1 ≤ count }
    requires most { count ≤ 256 }
    requires there { first + count ≤ record_sectors (length one.content.now) }
    ensures part { WritesPart (write_to one.entry) one.entry.disk buf.number patience.old.left patience.new.left (S.device shelf.old) (S.device shelf.new) result }
    ensures stands { IfMoved result (λ back. PartsStand (write_to one.entry) (S.device shelf.new) one.entry.disk first (first + count)) }
{
    let mut buf = buf;
    fill(&mut buf, one, first, count);
    let start = slot_start(one.kind, one.second) + u64::from(first);
    transfer(shelf, true, one.disk, start, count, buf, patience)
}

// Puts so many sectors of the record, from one of them on, at the front of a buffer.
fn fill(buf: &mut Pbuf, one: SlotWrite<'_>, first: u32, count: u32)
    requires fits { length one.content.now ≤ longest_content one.kind }
    requires most { count ≤ 256 }
    requires there { first + count ≤ record_sectors (length one.content.now) }
    ensures frames { (k : ℕ) → k < count → slice_get buf.new.sectors k ≡ Some (frame one.entry.kind one.entry.stamp one.entry.content.now (first + k)) }
    ensures number { buf.new.number ≡ buf.old.number }
{
    for k in 0..count {
        buf.set_sector(k, &frame(one.kind, one.stamp, one.content, first + k));
    }
}

// The sector at which slot 0 or 1 of the kind begins.
fn slot_start(kind: Kind, second: bool) -> u64
    ensures { result ≡ slot_start kind (if second then 1 else 0) }
{
    match (kind, second) {
        (Kind::Descriptor, false) => 512,
        (Kind::Descriptor, true) => 1664,
        (Kind::Status, false) => 64,
        (Kind::Status, true) => 128,
    }
}
