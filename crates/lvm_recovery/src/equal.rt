//! What a group that comes on does once its records are written: copies are made equal, then the marks of volumes go that
//! aren't needed, and then the notes are emptied.
ghost use Rattle.std.specs.Prelude.{◌≡◌, ◌≢◌, ◌≤◌, ◌++◌, length, All, IfSome};
ghost use Rattle.lvm_num.specs.declared.record.Kind.TheVariants as kind;
ghost use Rattle.lvm_num.specs.Descriptor.{IsValid};
ghost use Rattle.lvm_num.specs.Disks.{has};
ghost use Rattle.lvm_num.specs.Record.{longest_content};
ghost use Rattle.lvm_disk.specs.Device.{IsReady};
ghost use Rattle.lvm_write.specs.Written.{HaveRoom};
ghost use Rattle.lvm_recovery.specs.Copying.{IsFull, MayCopy, AreApart, AllGive};
ghost use Rattle.lvm_recovery.specs.Plan.{copies_dirty};
ghost use Rattle.lvm_recovery.specs.Equalising.{EqualiseGives, EqualisedStaysKept, StatesSecond};

use crate::copying::{Recopy, copy_all};
use crate::dirty::copy_dirty;
use lvm_disk::Shelf;
use lvm_num::{Descriptor, DiskSet, Kind, Pbuf, Rows, Stamp};
use lvm_rec::Homes;
use lvm_status::StaleTable;
use lvm_transfer::Patience;
use lvm_write::{Begun, forget_notes, put_record};

/// Makes these copies one after another, and then those of each dirty volume in mode passive, whole; then writes the
/// second status to each target, if there is one, under sequence 3 of the epoch; and then a note without entries. It
/// goes up to the first transfer that doesn't end well: marks go and notes are emptied once all copies are made. It
/// takes no memory.
pub fn equalise<S: Shelf>(
    shelf: &mut S,
    copies: &[Recopy],
    group: &Descriptor,
    table: &StaleTable,
    second: &Option<Rows<u8>>,
    epoch: u64,
    targets: DiskSet,
    homes: &mut Homes,
    buf: Pbuf,
    patience: &mut Patience,
) -> Begun
    requires ready { IsReady (S.device shelf.old) }
    requires valid { IsValid group.now }
    requires ranges { All (MayCopy (S.device shelf.old).sizes) (copies.now ++ copies_dirty group.now table.now (has targets)) }
    requires apart { AreApart (copies.now ++ copies_dirty group.now table.now (has targets)) }
    requires epoch { epoch ≢ 0 }
    requires fits { IfSome second.now (λ bytes. length bytes ≤ longest_content kind.Status) }
    requires targets { HaveRoom (S.device shelf.old) (has targets) }
    ensures gives { EqualiseGives (copies.now ++ copies_dirty group.now table.now (has targets)) second.now epoch (has targets) homes.old homes.new buf.number patience.old.left patience.new.left (S.device shelf.old) (S.device shelf.new) result }
    ensures kept { EqualisedStaysKept (copies.now ++ copies_dirty group.now table.now (has targets)) second.now epoch (has targets) homes.old (S.device shelf.old) (S.device shelf.new) }
{
    let copied = copy_planned(shelf, copies, group, table, targets, full(buf), patience);
    let Begun::Ended { buf } = copied else {
        return copied;
    };
    let stated = state_second(shelf, second, epoch, targets, homes, buf, patience);
    let Begun::Ended { buf } = stated else {
        return stated;
    };
    forget_notes(shelf, epoch, targets, buf, patience)
}

// Makes these copies, and then those of dirty volumes.
fn copy_planned<S: Shelf>(
    shelf: &mut S,
    copies: &[Recopy],
    group: &Descriptor,
    table: &StaleTable,
    disks: DiskSet,
    buf: Pbuf,
    patience: &mut Patience,
) -> Begun
    requires ready { IsReady (S.device shelf.old) }
    requires full { IsFull buf }
    requires valid { IsValid group.now }
    requires ranges { All (MayCopy (S.device shelf.old).sizes) (copies.now ++ copies_dirty group.now table.now (has disks)) }
    requires apart { AreApart (copies.now ++ copies_dirty group.now table.now (has disks)) }
    ensures gives { AllGive (copies.now ++ copies_dirty group.now table.now (has disks)) buf.number patience.old.left patience.new.left (S.device shelf.old) (S.device shelf.new) result }
{
    let copied = copy_all(shelf, copies, buf, patience);
    let Begun::Ended { buf } = copied else {
        return copied;
    };
    copy_dirty(shelf, group, table, disks, buf, patience)
}

// Writes the second status, if there is one.
fn state_second<S: Shelf>(
    shelf: &mut S,
    second: &Option<Rows<u8>>,
    epoch: u64,
    targets: DiskSet,
    homes: &mut Homes,
    buf: Pbuf,
    patience: &mut Patience,
) -> Begun
    requires ready { IsReady (S.device shelf.old) }
    requires epoch { epoch ≢ 0 }
    requires fits { IfSome second.now (λ bytes. length bytes ≤ longest_content kind.Status) }
    requires targets { HaveRoom (S.device shelf.old) (has targets) }
    ensures { StatesSecond second.now epoch (has targets) homes.old homes.new buf.number patience.old.left patience.new.left (S.device shelf.old) (S.device shelf.new) result }
{
    match second {
        None => Begun::Ended { buf },
        Some(bytes) => {
            let stamp = Stamp { epoch, seq: 3 };
            put_record(
                shelf,
                Kind::Status,
                stamp,
                bytes.as_slice(),
                targets,
                homes,
                buf,
                patience,
            )
        }
    }
}

// The buffer, of which it is said that it has 256 sectors.
fn full(buf: Pbuf) -> Pbuf
    ensures full { IsFull result }
    ensures number { result.number ≡ buf.number }
{
    let _whole = buf.is_whole();
    buf
}
