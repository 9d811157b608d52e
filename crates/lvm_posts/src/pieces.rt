//! Where the pieces of a range end, and what is written to them.
ghost use Rattle.std.specs.Prelude.{◌≡◌, ◌+◌, ◌*◌, ◌/◌, ◌^◌, ◌<◌, ◌≤◌, length, vec_capacity};
ghost use Rattle.lvm_raw.specs.Pieces.{piece_count};
ghost use Rattle.lvm_posts.specs.Pieces.{IsLaidOut, filled, piece_lp};

use crate::asked::Asked;
use lvm_num::{TRACK_GROUP, fill};
use lvm_raw::append;

// A piece ends at a multiple of so many blocks.
const GROUP: u64 = TRACK_GROUP as u64;

/// How many pieces a range of a volume has.
pub fn piece_count(at: u64, count: u32) -> u32
    requires some { 1 ≤ count }
    requires last { at + count < 2 ^ 64 }
    ensures is { result ≡ piece_count at count }
{
    let last = at + u64::from(count) - 1;
    (last / GROUP - at / GROUP + 1) as u32
}

/// The logical partition, from 0, in which the piece of this index lies.
pub fn piece_lp(asked: &Asked, piece: u32) -> u32
    requires laid { IsLaidOut asked.now }
    requires within { piece < asked.now.pieces }
    ensures { result ≡ piece_lp asked.now piece }
{
    let start = if piece == 0 {
        asked.at
    } else {
        GROUP * (asked.at / GROUP + u64::from(piece))
    };
    (start / (2048 * u64::from(asked.mib))) as u32
}

/// Puts so many blocks of a range into bytes that have room for a whole piece, from the one on that stands so far
/// behind the first, which is filled with the word.
pub fn fill_bytes(bytes: &mut Vec<u8>, word: u64, skip: u64, count: u32)
    requires count { count ≤ 256 }
    requires skip { skip < 2 ^ 32 }
    requires room { 131072 ≤ vec_capacity bytes.old }
    ensures filled { bytes.new.items ≡ filled word skip count }
    ensures long { length bytes.new.items ≡ 512 * count }
    ensures room { 131072 ≤ vec_capacity bytes.new }
{
    bytes.clear();
    for k in 0..count {
        append(bytes, &fill(word.wrapping_add(skip + u64::from(k))));
    }
}
