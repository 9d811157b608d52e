//! The bytes of a status: a head, a row for each member, and the dirty volumes where there are any.
ghost use Rattle.std.specs.Prelude.{◌≡◌, ◌+◌, ◌*◌, ◌≤◌, ◌++◌, length, drop, flat_map, IfOk};
ghost use Rattle.std.specs.Int.{w16, w64, to_be_bytes};
ghost use Rattle.lvm_num.specs.Status.{AreStatusRows, IsValidStatus};
ghost use Rattle.lvm_num.specs.StatusBytes.{status_version, status_magic, big_number, status_row_bytes, dirty_bytes, status_bytes};
ghost use Rattle.lvm_vgsa.specs.Putting.{Puts};

use crate::putting::{number_bytes, put};
use byteorder::{BigEndian, ByteOrder};
use lvm_num::{Memory, Rows, Status, StatusRow};
use std::alloc::Global;

const HEAD: usize = 16;

const ROW: usize = 132;

/// The bytes of a status that is valid. `Memory` comes where there is none for them.
pub fn encode(alloc: Global, s: &Status) -> Result<Rows<u8>, Memory>
    requires { IsValidStatus s.now }
    ensures { IfOk result (λ bytes. bytes ≡ status_bytes s.now) }
{
    match vec![in alloc; 0; size_of_status(s)] {
        Ok(mut bytes) => {
            encode_into(s, &mut bytes);
            Ok(Rows::new(bytes))
        }
        Err(_) => Err(Memory),
    }
}

/// Writes the bytes of a status to the front of others, and answers how many these are. What
/// follows stays. It takes no memory.
pub fn encode_into(s: &Status, into: &mut [u8]) -> usize
    requires valid { IsValidStatus s.now }
    requires fits { length (status_bytes s.now) ≤ length into.old }
    ensures written { into.new ≡ status_bytes s.now ++ drop (length (status_bytes s.now)) into.old }
    ensures count { result ≡ length (status_bytes s.now) }
{
    let head = put(into, 0, &head(s));
    let rows = put_rows(into, head, s.rows.as_slice());
    put_dirty(into, rows, s.dirty.as_slice())
}

// How many bytes a status has.
fn size_of_status(s: &Status) -> usize
    requires { IsValidStatus s.now }
    ensures { result ≡ length (status_bytes s.now) }
{
    HEAD + ROW * s.rows.len() + size_of_dirty(s.dirty.as_slice())
}

fn size_of_dirty(numbers: &[u16]) -> usize
    requires { length numbers.now ≤ 511 }
    ensures { result ≡ length (dirty_bytes numbers.now) }
{
    if numbers.is_empty() {
        0
    } else {
        2 + 2 * numbers.len()
    }
}

// Version 3 where a volume is dirty, else version 2 where the group is big, else version 1.
fn version(s: &Status) -> u8
    ensures { result ≡ status_version s.now }
{
    if !s.dirty.is_empty() {
        3
    } else if s.big {
        2
    } else {
        1
    }
}

fn big_number(s: &Status) -> u16
    ensures { result ≡ big_number s.now }
{
    if version(s) == 3 && s.big { 1 } else { 0 }
}

// What stands before the rows.
fn head(s: &Status) -> [u8; 16]
    requires { length s.now.rows ≤ 128 }
    ensures { result ≡ status_magic (status_version s.now) ++ to_be_bytes w64 s.now.id ++ to_be_bytes w16 (length s.now.rows) ++ to_be_bytes w16 (big_number s.now) }
{
    let mut bytes = [
        b'V',
        b'G',
        b'S',
        b'0' + version(s),
        0,
        0,
        0,
        0,
        0,
        0,
        0,
        0,
        0,
        0,
        0,
        0,
    ];
    BigEndian::write_u64(&mut bytes[4..12], s.id);
    BigEndian::write_u16(&mut bytes[12..14], s.rows.len() as u16);
    BigEndian::write_u16(&mut bytes[14..], big_number(s));
    bytes
}

fn row_bytes(row: &StatusRow) -> [u8; 132]
    ensures { result ≡ status_row_bytes row.now }
{
    let mut bytes = [0; ROW];
    BigEndian::write_u16(&mut bytes[..2], row.disk);
    bytes[2] = u8::from(row.missing);
    bytes[4..131].copy_from_slice(&row.stale);
    bytes
}

fn put_rows(into: &mut [u8], at: usize, rows: &[StatusRow]) -> usize
    requires fits { at + 132 * length rows.now ≤ length into.old }
    requires rows { AreStatusRows rows.now }
    ensures puts { Puts into.old into.new at (flat_map status_row_bytes rows.now) }
    ensures end { result ≡ at + 132 * length rows.now }
{
    let mut end = at;
    for row in rows {
        end = put(into, end, &row_bytes(row));
    }
    end
}

fn put_dirty(into: &mut [u8], at: usize, numbers: &[u16]) -> usize
    requires fits { at + length (dirty_bytes numbers.now) ≤ length into.old }
    requires few { length numbers.now ≤ 511 }
    ensures puts { Puts into.old into.new at (dirty_bytes numbers.now) }
    ensures end { result ≡ at + length (dirty_bytes numbers.now) }
{
    if numbers.is_empty() {
        return at;
    }
    let numbers_at = put(into, at, &number_bytes(numbers.len() as u16));
    put_numbers(into, numbers_at, numbers)
}

fn put_numbers(into: &mut [u8], at: usize, numbers: &[u16]) -> usize
    requires { at + 2 * length numbers.now ≤ length into.old }
    ensures puts { Puts into.old into.new at (flat_map (to_be_bytes w16) numbers.now) }
    ensures end { result ≡ at + 2 * length numbers.now }
{
    let mut end = at;
    for number in numbers {
        end = put(into, end, &number_bytes(*number));
    }
    end
}
