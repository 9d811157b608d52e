//! Framed records: each sector has a magic, its index and the record's stamp before its part of the
//! payload, which is the length of the content, the content, and zeros.
ghost use Rattle.std.specs.Prelude.{IsTrue, IfOk, IfSome, IfNone, ◌↔◌, ◌≡◌, ◌+◌, ◌*◌, ◌<◌, ◌≤◌, ◌++◌, ◌^◌, length, replicate, take, drop};
ghost use Rattle.std.specs.Int.{w16, w32, w64, to_be_bytes};
ghost use Rattle.lvm_num.specs.declared.record.Framed.{Framed};
ghost use Rattle.lvm_num.specs.Record.{kind_magic, longest_content, record_sectors, payload, payload_of, frame, record_bytes, IsRecord, record_in};
ghost use Rattle.lvm_rec.specs.Frames.{MayFrame};

use crate::numbers::{u32_at, u64_at};
use byteorder::{BigEndian, ByteOrder};
use lvm_num::{BLOCK_BYTES, Framed, Kind, Memory, Rows, Stamp};
use std::alloc::{AllocError, Global};

const HEAD: usize = 16;

const PART: usize = 496;

const LENGTH: usize = 4;

/// How many sectors a record of so many bytes of content has.
pub fn slot_sectors(content: usize) -> u32
    requires { content ≤ 571388 }
    ensures { result ≡ record_sectors content }
{
    (content + LENGTH).div_ceil(PART) as u32
}

/// One sector of the record of a content under a stamp, by its index from 0.
pub fn frame(kind: Kind, stamp: Stamp, content: &[u8], index: u32) -> [u8; 512]
    requires fits { length content.now ≤ longest_content kind }
    requires within { index < record_sectors (length content.now) }
    ensures { result ≡ frame kind stamp content.now index }
{
    let mut sector = [0; BLOCK_BYTES];
    sector[..HEAD].copy_from_slice(&head(kind, stamp, index));
    sector[HEAD..].copy_from_slice(&part(content, index));
    sector
}

fn magic(kind: Kind) -> [u8; 2]
    ensures { result ≡ kind_magic kind }
{
    match kind {
        Kind::Descriptor => *b"VD",
        Kind::Status => *b"VS",
    }
}

fn head(kind: Kind, stamp: Stamp, index: u32) -> [u8; 16]
    requires { index < 2 ^ 16 }
    ensures { result ≡ kind_magic kind ++ to_be_bytes w16 index ++ to_be_bytes w32 stamp.seq ++ to_be_bytes w64 stamp.epoch }
{
    let mut head = [0; HEAD];
    head[..2].copy_from_slice(&magic(kind));
    BigEndian::write_u16(&mut head[2..4], index as u16);
    BigEndian::write_u32(&mut head[4..8], stamp.seq);
    BigEndian::write_u64(&mut head[8..], stamp.epoch);
    head
}

fn part(content: &[u8], index: u32) -> [u8; 496]
    requires fits { length content.now < 2 ^ 32 }
    requires within { index < record_sectors (length content.now) }
    ensures { result ≡ take 496 (drop (496 * index) (payload content.now)) }
{
    if index == 0 {
        first_part(content)
    } else {
        let from = PART * index as usize - LENGTH;
        later_part(&content[from..])
    }
}

// The length, and what of the content follows it.
fn first_part(content: &[u8]) -> [u8; 496]
    requires { length content.now < 2 ^ 32 }
    ensures { result ≡ take 496 (payload content.now) }
{
    let mut part = [0; PART];
    let len = content.len().min(PART - LENGTH);
    BigEndian::write_u32(&mut part[..LENGTH], content.len() as u32);
    part[LENGTH..LENGTH + len].copy_from_slice(&content[..len]);
    part
}

// What is left of the content, and zeros behind it.
fn later_part(rest: &[u8]) -> [u8; 496]
    ensures { result ≡ take 496 (rest.now ++ replicate 496 0) }
{
    let mut part = [0; PART];
    let len = rest.len().min(PART);
    part[..len].copy_from_slice(&rest[..len]);
    part
}

/// The record that the bytes of a slot begin with, if they do: what stands behind it isn't looked at.
pub fn read_slot(alloc: Global, kind: Kind, bytes: &[u8]) -> Result<Option<Framed>, Memory>
    ensures { IfOk result (λ held. held ≡ record_in kind bytes.now) }
{
    let Some((stamp, len)) = announced(kind, bytes) else {
        return Ok(None);
    };
    let content = gather(alloc, bytes, len)?;
    if !begins_with(bytes, kind, stamp, &content) {
        return Ok(None);
    }
    Ok(Some(Framed {
        stamp,
        content: Rows::new(content),
    }))
}

// The stamp and the length of the content by the first sector, where a record of the kind may have
// them and the bytes hold one of that length.
fn announced(kind: Kind, bytes: &[u8]) -> Option<(Stamp, usize)>
    ensures may { IfSome result (λ first. MayFrame kind bytes.now first.0 first.1) }
    ensures none { IfNone result ((r : Framed) → IsRecord kind bytes.now r → ⊥) }
{
    if bytes.len() < BLOCK_BYTES {
        return None;
    }
    let epoch = u64_at(bytes, 8);
    let seq = u32_at(bytes, 4);
    let len = u32_at(bytes, HEAD) as usize;
    if epoch == 0 || seq == 0 || len > longest(kind) {
        return None;
    }
    if bytes.len() < BLOCK_BYTES * slot_sectors(len) as usize {
        return None;
    }
    Some((Stamp { epoch, seq }, len))
}

fn longest(kind: Kind) -> usize
    ensures { result ≡ longest_content kind }
{
    match kind {
        Kind::Descriptor => 571_388,
        Kind::Status => 31_740,
    }
}

// So many bytes of content, from the parts of the payload in each sector.
fn gather(alloc: Global, bytes: &[u8], len: usize) -> Result<Vec<u8>, AllocError>
    requires content { len ≤ 571388 }
    requires there { 512 * record_sectors len ≤ length bytes.now }
    ensures { IfOk result (λ content. content.items ≡ take len (drop 4 (payload_of bytes.now (record_sectors len)))) }
{
    let mut content = Vec::from_slice(alloc, &bytes[HEAD + LENGTH..BLOCK_BYTES])?;
    for k in 1..slot_sectors(len) as usize {
        content.extend_from_slice(&bytes[BLOCK_BYTES * k + HEAD..BLOCK_BYTES * k + BLOCK_BYTES])?;
    }
    content.truncate(len);
    Ok(content)
}

// Whether the bytes begin with the sectors of this record.
fn begins_with(bytes: &[u8], kind: Kind, stamp: Stamp, content: &[u8]) -> bool
    requires fits { length content.now ≤ longest_content kind }
    requires there { 512 * record_sectors (length content.now) ≤ length bytes.now }
    ensures { IsTrue result ↔ (take (512 * record_sectors (length content.now)) bytes.now ≡ record_bytes kind (record { stamp = stamp; content = content.now })) }
{
    for k in 0..slot_sectors(content.len()) {
        if !stands_at(
            bytes,
            BLOCK_BYTES * k as usize,
            &frame(kind, stamp, content, k),
        ) {
            return false;
        }
    }
    true
}

fn stands_at(bytes: &[u8], at: usize, sector: &[u8; 512]) -> bool
    requires { at + 512 ≤ length bytes.now }
    ensures { IsTrue result ↔ (take 512 (drop at bytes.now) ≡ sector.now) }
{
    bytes[at..at + BLOCK_BYTES] == sector[..]
}
