//! Both slots of descriptors of a disk are zeroed.
ghost use Rattle.std.specs.Prelude.{◌≡◌, ◌==◌, ◌≤◌, ◌+◌, Some, slice_get};
ghost use Rattle.lvm_num.specs.declared.record.Kind.TheVariants as kind;
ghost use Rattle.lvm_num.specs.Buffer.{zero_sector};
ghost use Rattle.lvm_num.specs.Record.{slot_start};
ghost use Rattle.lvm_disk.specs.Device.{IsReady};
ghost use Rattle.lvm_disk.specs.Paths.{DeviceStep, Path};
ghost use Rattle.lvm_write.specs.Parts.{DoesPart, IfMoved};
ghost use Rattle.lvm_write.specs.Written.{HasRoom, IsWriting};
ghost use Rattle.lvm_erase.specs.Erasing.{slot_number, ZeroesSlot, ZeroesSlots, StartsWithZeros, IsErased, ErasesInOrder};

use lvm_disk::Shelf;
use lvm_num::Pbuf;
use lvm_transfer::{Moved, Patience, transfer};

/// Writes zeros to the first sector of both slots of descriptors of a disk, first of the older one and, where that
/// went well, of the newer one. So the disk goes on showing the newest descriptor until it shows none. It takes no
/// memory.
pub fn erase_descriptor<S: Shelf>(
    shelf: &mut S,
    disk: u16,
    second_is_older: bool,
    buf: Pbuf,
    patience: &mut Patience,
) -> Moved
    requires ready { IsReady (S.device shelf.old) }
    requires room { HasRoom (S.device shelf.old) disk }
    ensures part { DoesPart (λ d. d == disk) (ZeroesSlots disk) disk buf.number patience.old.left patience.new.left (S.device shelf.old) (S.device shelf.new) result }
    ensures erased { IfMoved result (λ back. IsErased disk (S.device shelf.new)) }
    // at each moment
    ensures order { Path DeviceStep (ErasesInOrder disk (slot_number second_is_older) (S.device shelf.old)) (S.device shelf.old) (S.device shelf.new) }
{
    let mut buf = buf;
    buf.set_sector(0, &[0; 512]);
    match zero_slot(shelf, disk, second_is_older, buf, patience) {
        Moved::Done(back) => zero_slot(shelf, disk, !second_is_older, back, patience),
        ended => ended,
    }
}

// Writes zeros to the first sector of one slot.
fn zero_slot<S: Shelf>(
    shelf: &mut S,
    disk: u16,
    second: bool,
    buf: Pbuf,
    patience: &mut Patience,
) -> Moved
    requires ready { IsReady (S.device shelf.old) }
    requires room { HasRoom (S.device shelf.old) disk }
    requires zeros { slice_get buf.sectors 0 ≡ Some zero_sector }
    ensures part { DoesPart (λ d. d == disk) (ZeroesSlots disk) disk buf.number patience.old.left patience.new.left (S.device shelf.old) (S.device shelf.new) result }
    ensures alone { Path DeviceStep (IsWriting (ZeroesSlot disk (slot_number second)) (S.device shelf.old)) (S.device shelf.old) (S.device shelf.new) }
    ensures stands { IfMoved result (λ back. StartsWithZeros disk (slot_number second) (S.device shelf.new)) }
    ensures back { IfMoved result (λ back. back ≡ buf) }
{
    transfer(shelf, true, disk, slot_start(second), 1, buf, patience)
}

// The sector at which slot 0 or 1 begins.
fn slot_start(second: bool) -> u64
    ensures start { result ≡ slot_start kind.Descriptor (slot_number second) }
    ensures low { result + 1 ≤ 4096 }
{
    if second { 1664 } else { 512 }
}
