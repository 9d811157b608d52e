//! A buffer takes the blocks of a write.
ghost use Rattle.std.specs.Prelude.{◌≡◌, ◌≤◌, ◌<◌, ◌+◌, ℕ, length, slice_get};
ghost use Rattle.lvm_vol.specs.Log.{blocks_begun, blocks_of};

use lvm_history::History;
use lvm_num::Pbuf;

/// A buffer with the blocks of a history from a place on, so many, at its front.
pub fn load(history: &History, place: u64, count: u32, buf: Pbuf) -> Pbuf
    requires count { count ≤ 256 }
    requires within { place + count ≤ blocks_begun history.now.facts }
    requires long { length buf.sectors ≡ 256 }
    ensures number { result.number ≡ buf.number }
    ensures long { length result.sectors ≡ 256 }
    ensures blocks { (k : ℕ) → k < count → slice_get result.sectors k ≡ slice_get (blocks_of history.now.facts) (place + k) }
{
    // The places of its blocks are numbers of 64 bits.
    let _ = history.block_count();
    let mut buf = buf;
    for k in 0..count {
        buf.set_sector(k, history.block(place + u64::from(k)));
    }
    buf
}
