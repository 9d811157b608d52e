//! The words of a case.

use crate::fault::Fault;
use crate::images::{Patch, Span};
use crate::run::Mirror;
use crate::shown::Window;
use lvm_memory::{Act, Planned};
use lvm_num::Text;
use lvm_program::Workload;
use std::alloc::Global;

/// A number in decimal digits.
pub(crate) fn number(word: &str) -> Result<u64, Fault> {
    Ok(word.parse::<u64>()?)
}

// The number of a disk by its name.
fn disk(word: &str) -> Result<u16, Fault> {
    match word.strip_prefix("hdisk") {
        Some(digits) => Ok(digits.parse::<u16>()?),
        None => Err(Fault::Line),
    }
}

// A number in hexadecimal digits.
fn hexadecimal(word: &str) -> Result<u64, Fault> {
    Ok(u64::from_str_radix(word, 16)?)
}

pub(crate) fn small(word: &str) -> Result<u32, Fault> {
    Ok(word.parse::<u32>()?)
}

/// A word, and what stands behind it.
pub(crate) fn split(text: &str) -> (&str, &str) {
    match text.split_once(' ') {
        Some(parts) => parts,
        None => (text, ""),
    }
}

/// Numbers between blanks.
pub(crate) fn numbers(alloc: Global, text: &str) -> Result<Vec<u64>, Fault> {
    let mut numbers = Vec::new(alloc);
    for word in text.split_whitespace() {
        numbers.push(number(word)?)?;
    }
    Ok(numbers)
}

/// The sizes in sectors of disks, of which so many have so many MiB.
pub(crate) fn simulated(alloc: Global, text: &str) -> Result<Vec<u64>, Fault> {
    let (disks, mib) = split(text);
    let (disks, mib) = (number(disks)?, number(mib)?);
    if disks > 128 || mib > 64 {
        return Err(Fault::Line);
    }
    Ok(vec![in alloc; 2_048 * mib; disks as usize]?)
}

// An act by its name and the one word behind it.
fn act(name: &str, word: &str) -> Result<Act, Fault> {
    match name {
        "cut" => Ok(Act::Cut(hexadecimal(word)?)),
        "pick" => Ok(Act::Pick(hexadecimal(word)?)),
        "fail" => Ok(Act::Fail(disk(word)?)),
        "heal" => Ok(Act::Heal(disk(word)?)),
        "delay" => Ok(Act::Delay(small(word)?)),
        _ => Err(Fault::Line),
    }
}

/// An act at a call: the call's number, the act's name and its word.
pub(crate) fn planned(text: &str) -> Result<Planned, Fault> {
    let (call, rest) = split(text);
    let (name, word) = split(rest);
    Ok(Planned {
        call: number(call)?,
        act: act(name, word)?,
    })
}

/// Acts of one name, one for each word behind it.
pub(crate) fn acts(alloc: Global, text: &str) -> Result<Vec<Act>, Fault> {
    let (name, words) = split(text);
    let mut acts = Vec::new(alloc);
    for word in words.split_whitespace() {
        acts.push(act(name, word)?)?;
    }
    Ok(acts)
}

/// A disk, and the number of one of its sectors.
pub(crate) fn place(text: &str) -> Result<(u16, u64), Fault> {
    let (name, at) = split(text);
    Ok((disk(name)?, number(at)?))
}

// Sectors of a disk by its name, the first one and their number, and what stands behind.
fn span(text: &str) -> Result<(Span, &str), Fault> {
    let (name, rest) = split(text);
    let (first, rest) = split(rest);
    let (count, rest) = split(rest);
    let span = Span {
        disk: disk(name)?,
        first: number(first)?,
        count: number(count)?,
    };
    Ok((span, rest))
}

/// Sectors of a disk, and the byte that is to fill them.
pub(crate) fn filling(text: &str) -> Result<(Span, u8), Fault> {
    let (span, byte) = span(text)?;
    Ok((span, u8::from_str_radix(byte, 16)?))
}

/// Sectors of a disk, and the place of their copies.
pub(crate) fn copying(text: &str) -> Result<(Span, (u16, u64)), Fault> {
    let (span, rest) = span(text)?;
    Ok((span, place(rest)?))
}

/// Bytes for a disk: its name, a sector, a byte of it, and the digits of the bytes.
pub(crate) fn patch(alloc: Global, text: &str) -> Result<Patch, Fault> {
    let (name, rest) = split(text);
    let (sector, rest) = split(rest);
    let (byte, digits) = split(rest);
    let (disk, sector, byte) = (disk(name)?, number(sector)?, number(byte)?);
    Ok(Patch {
        disk,
        at: sector.saturating_mul(512).saturating_add(byte),
        bytes: hex::decode(alloc, digits)?,
    })
}

/// Two disks by their names, and sectors that both have: the first one and their number.
pub(crate) fn mirror(text: &str) -> Result<Mirror, Fault> {
    let (one, rest) = split(text);
    let (other, rest) = split(rest);
    let (first, count) = split(rest);
    Ok(Mirror {
        one: disk(one)?,
        other: disk(other)?,
        first: number(first)?,
        count: number(count)?,
    })
}

/// Bytes of a disk: its name, a sector, the first byte of it and their number.
pub(crate) fn window(text: &str) -> Result<Window, Fault> {
    let (name, rest) = split(text);
    let (sector, rest) = split(rest);
    let (first, count) = split(rest);
    Ok(Window {
        disk: disk(name)?,
        sector: number(sector)?,
        first: small(first)? as usize,
        count: small(count)? as usize,
    })
}

/// A workload: its clients, its requests and its seed.
pub(crate) fn workload(text: &str) -> Result<Workload, Fault> {
    let (clients, rest) = split(text);
    let (requests, seed) = split(rest);
    Ok(Workload {
        clients: small(clients)?,
        requests: small(requests)?,
        seed: number(seed)?,
    })
}

/// Words of a command line, each between brackets.
pub(crate) fn bracketed(alloc: Global, text: &str) -> Result<Vec<Text>, Fault> {
    match text.strip_prefix('[') {
        Some(inner) => texts(alloc, inner.strip_suffix(']').unwrap_or(inner)),
        None if text.is_empty() => Ok(Vec::new(alloc)),
        None => Err(Fault::Line),
    }
}

fn texts(alloc: Global, inner: &str) -> Result<Vec<Text>, Fault> {
    let mut words = Vec::new(alloc);
    for word in inner.split("] [") {
        words.push(text_of(alloc, word)?)?;
    }
    Ok(words)
}

fn text_of(alloc: Global, word: &str) -> Result<Text, Fault> {
    Ok(Text::new(String::from_str(alloc, word)?))
}
