//! The blocks at the front of a buffer.
ghost use Rattle.std.specs.Prelude.{◌≡◌, ◌+◌, ◌*◌, ◌++◌, ◌≤◌, length, take, vec_len, vec_capacity};
ghost use Rattle.std.specs.Simd.{first_chunks};
ghost use Rattle.lvm_raw.specs.OnePiece.{AreFilled};

use lvm_num::{Pbuf, fill};

/// Fills the buffer's first sectors, the first with this word and each other with the next, wrapping.
pub fn fill_front(buf: &mut Pbuf, word: u64, count: u32)
    requires { count ≤ 256 }
    ensures filled { AreFilled word (take count buf.new.sectors) }
    ensures long { length (take count buf.new.sectors) ≡ count }
{
    for k in 0..count {
        buf.set_sector(k, &fill(word.wrapping_add(u64::from(k))));
    }
}

/// Puts the bytes of the buffer's first sectors into a `Vec` that has room for a whole buffer.
pub fn copy_front(bytes: &mut Vec<u8>, buf: &Pbuf, count: u32)
    requires count { count ≤ 256 }
    requires room { 131072 ≤ vec_capacity bytes.old }
    ensures blocks { first_chunks 512 count bytes.new.items ≡ take count buf.now.sectors }
    ensures size { length bytes.new.items ≡ 512 * count }
    ensures long { count ≤ length buf.now.sectors }
    ensures room { 131072 ≤ vec_capacity bytes.new }
{
    bytes.clear();
    for k in 0..count {
        append(bytes, buf.sector(k));
    }
}

/// Appends the buffer's first sectors to blocks that have room for them.
pub fn keep_front(blocks: &mut Vec<[u8; 512]>, buf: &Pbuf, count: u32)
    requires count { count ≤ 256 }
    requires room { vec_len blocks.old + count ≤ vec_capacity blocks.old }
    ensures items { blocks.new.items ≡ blocks.old.items ++ take count buf.now.sectors }
    ensures len { vec_len blocks.new ≡ vec_len blocks.old + count }
    ensures long { count ≤ length buf.now.sectors }
    ensures room { vec_capacity blocks.old ≤ vec_capacity blocks.new }
{
    for k in 0..count {
        match blocks.push(*buf.sector(k)) {
            Ok(()) => {}
            Err(_) => unreachable!(),
        }
    }
}

/// Appends bytes to bytes that have room for them.
pub fn append(bytes: &mut Vec<u8>, more: &[u8])
    requires { vec_len bytes.old + length more.now ≤ vec_capacity bytes.old }
    ensures items { bytes.new.items ≡ bytes.old.items ++ more.now }
    ensures len { vec_len bytes.new ≡ vec_len bytes.old + length more.now }
    ensures room { vec_capacity bytes.old ≤ vec_capacity bytes.new }
{
    match bytes.extend_from_slice(more) {
        Ok(()) => {}
        Err(_) => unreachable!(),
    }
}
