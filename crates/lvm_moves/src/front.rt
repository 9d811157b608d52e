//! The blocks at the front of a buffer.
ghost use Rattle.std.specs.Prelude.{◌≡◌, ◌≤◌, ◌<◌, ◌*◌, ℕ, IsSomeAnd, length, slice_get, take};
ghost use Rattle.std.specs.Simd.{first_chunks};

use lvm_num::Pbuf;

// Each of a buffer's first sectors is 512 bytes.
fn are_whole(buf: &Pbuf, count: u32)
    requires { count ≤ 256 }
    ensures { (k : ℕ) → k < count → IsSomeAnd (slice_get buf.now.sectors k) (λ sector. length sector ≡ 512) }
{
    for k in 0..count {
        let _: &[u8] = buf.sector(k);
    }
}

/// The bytes of a buffer's first blocks.
pub fn front(buf: &Pbuf, count: u32) -> &[u8]
    requires { count ≤ 256 }
    ensures blocks { first_chunks 512 count result.now ≡ take count buf.now.sectors }
    ensures size { length result.now ≡ 512 * count }
{
    are_whole(buf, count);
    buf.front(count)
}
