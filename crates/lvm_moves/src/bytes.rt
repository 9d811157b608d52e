//! The record of the status in flight, in a buffer.
ghost use Rattle.std.specs.Prelude.{◌≡◌, ◌≤◌, ◌<◌, ℕ, None, Some, length, slice_get};
ghost use Rattle.lvm_num.specs.declared.record.Kind.TheVariants as kind;
ghost use Rattle.lvm_num.specs.Record.{frame, record_sectors};
ghost use Rattle.lvm_moves.specs.Updating.{CarriesUpdate};

use lvm_num::{Kind, Pbuf, Stamp};
use lvm_rec::{frame, slot_sectors};
use lvm_status::Updater;
use lvm_vgsa::encode_into;

// Puts the sectors of the record of a status at the front of a buffer.
fn put_frames(stamp: Stamp, content: &[u8], count: u32, buf: Pbuf) -> Pbuf
    requires count { count ≡ record_sectors (length content.now) }
    requires fits { length content.now ≤ 31740 }
    requires long { length buf.sectors ≡ 256 }
    ensures number { result.number ≡ buf.number }
    ensures long { length result.sectors ≡ 256 }
    ensures frames { (k : ℕ) → k < count → slice_get result.sectors k ≡ Some (frame kind.Status stamp content.now k) }
{
    let mut buf = buf;
    for k in 0..count {
        buf.set_sector(k, &frame(Kind::Status, stamp, content, k));
    }
    buf
}

/// A buffer with the record of the status in flight at its front, and how many sectors that has.
pub fn put_status(updater: &Updater, bytes: &mut [u8], buf: Pbuf) -> (u32, Pbuf)
    requires flies { updater.now.in_flight ≡ None → ⊥ }
    requires room { 131072 ≤ length bytes.old }
    requires long { length buf.sectors ≡ 256 }
    ensures carried { CarriesUpdate updater.now result.0 result.1 }
    ensures few { (1 ≤ result.0) × (result.0 ≤ 64) }
    ensures number { result.1.number ≡ buf.number }
    ensures long { length result.1.sectors ≡ 256 }
    ensures size { length bytes.new ≡ length bytes.old }
{
    match updater.in_flight() {
        None => unreachable!(),
        Some(status) => {
            let len = encode_into(status.as_status(), bytes);
            let count = slot_sectors(len);
            (
                count,
                put_frames(updater.stamp(), &bytes[..len], count, buf),
            )
        }
    }
}
