//! Zeros are written to a partition.
ghost use Rattle.std.specs.Prelude.{◌≡◌, ◌==◌, ◌<◌, ◌+◌, ◌*◌, IsTrue};
ghost use Rattle.lvm_num.specs.Descriptor.{is_size};
ghost use Rattle.lvm_num.specs.Geometry.{data_start, partition_blocks};
ghost use Rattle.lvm_disk.specs.Device.{IsReady};
ghost use Rattle.lvm_write.specs.Parts.{DoesPart, IfMoved};
ghost use Rattle.lvm_core.specs.Zeros.{IsZeroOf, IsZeroed, AreZeroed, HasSectorsOf, IsClear};

use lvm_commit::below::{Moved, Patience, transfer};
use lvm_disk::Shelf;
use lvm_num::{BUFFER_SECTORS, Pbuf, Pp};

// How many transfers a MiB has.
const PIECES: u32 = 8;

/// Writes zeros to all of a partition, in pieces of 256 sectors, up to the first that doesn't go well.
pub fn write_zeros<S: Shelf>(
    shelf: &mut S,
    mib: u16,
    pp: Pp,
    buf: Pbuf,
    patience: &mut Patience,
) -> Moved
    requires ready { IsReady (S.device shelf.old) }
    requires size { IsTrue (is_size mib) }
    requires partition { pp.pp < 1016 }
    requires room { HasSectorsOf (S.device shelf.old).sizes mib pp }
    ensures part { DoesPart (λ d. d == pp.disk) (IsZeroOf mib pp) pp.disk buf.number patience.old.left patience.new.left (S.device shelf.old) (S.device shelf.new) result }
    ensures zeros { IfMoved result (λ back. IsZeroed mib pp (S.device shelf.new)) }
{
    let mut buf = buf;
    clear(&mut buf);
    for piece in 0..PIECES * u32::from(mib) {
        match write_piece(shelf, mib, pp, piece, buf, patience) {
            Moved::Done(back) => buf = back,
            ended => return ended,
        }
    }
    Moved::Done(buf)
}

// Writes a buffer of zeros to one piece of a partition.
fn write_piece<S: Shelf>(
    shelf: &mut S,
    mib: u16,
    pp: Pp,
    piece: u32,
    buf: Pbuf,
    patience: &mut Patience,
) -> Moved
    requires ready { IsReady (S.device shelf.old) }
    requires size { IsTrue (is_size mib) }
    requires partition { pp.pp < 1016 }
    requires room { HasSectorsOf (S.device shelf.old).sizes mib pp }
    requires piece { piece < 8 * mib }
    requires clear { IsClear buf }
    ensures part { DoesPart (λ d. d == pp.disk) (IsZeroOf mib pp) pp.disk buf.number patience.old.left patience.new.left (S.device shelf.old) (S.device shelf.new) result }
    ensures zeros { IfMoved result (λ back. AreZeroed mib pp (256 * piece) (256 * piece + 256) (S.device shelf.new)) }
    ensures back { IfMoved result (λ back. back ≡ buf) }
{
    let first = start_of(mib, pp) + u64::from(BUFFER_SECTORS * piece);
    transfer(shelf, true, pp.disk, first, BUFFER_SECTORS, buf, patience)
}

// The first sector of a partition.
fn start_of(mib: u16, pp: Pp) -> u64
    ensures { result ≡ data_start + partition_blocks mib * pp.pp }
{
    4096 + 2048 * u64::from(mib) * u64::from(pp.pp)
}

// Makes all sectors of a buffer zeros.
fn clear(buf: &mut Pbuf)
    ensures number { buf.new.number ≡ buf.old.number }
    ensures clear { IsClear buf.new }
{
    for k in 0..BUFFER_SECTORS {
        buf.set_sector(k, &[0; 512]);
    }
}
