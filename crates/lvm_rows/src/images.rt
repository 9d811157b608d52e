//! Edits of what stands on the disks of a case.

use crate::fault::Fault;
use crate::parse;
use lvm_num::{BLOCK_BYTES, Rows};
use std::alloc::Global;

// The bytes of a sector.
const SECTOR: u64 = BLOCK_BYTES as u64;

/// Sectors of a disk: the first, and how many.
#[derive(Clone, Copy)]
pub struct Span {
    pub disk: u16,
    pub first: u64,
    pub count: u64,
}

/// Bytes that are to stand on a disk, from a byte of a sector on.
#[derive(Drop)]
pub struct Patch {
    pub disk: u16,
    pub at: u64,
    pub bytes: Vec<u8>,
}

/// Zeros, for disks of so many sectors.
pub(crate) fn zeros(alloc: Global, sectors: &[u64]) -> Result<Vec<Rows<u8>>, Fault> {
    let mut images = Vec::new(alloc);
    for count in sectors {
        images.push(zero_image(alloc, *count)?)?;
    }
    Ok(images)
}

fn zero_image(alloc: Global, sectors: u64) -> Result<Rows<u8>, Fault> {
    let bytes = usize::try_from(SECTOR.saturating_mul(sectors))?;
    Ok(Rows::new(vec![in alloc; 0; bytes]?))
}

/// The same images again.
pub(crate) fn copied(alloc: Global, images: &[Rows<u8>]) -> Result<Vec<Rows<u8>>, Fault> {
    let mut copies = Vec::new(alloc);
    for image in images {
        copies.push(copied_image(alloc, image)?)?;
    }
    Ok(copies)
}

fn copied_image(alloc: Global, image: &Rows<u8>) -> Result<Rows<u8>, Fault> {
    Ok(Rows::new(Vec::from_slice(alloc, image.as_slice())?))
}

fn image_at(images: &mut [Rows<u8>], disk: u16) -> Result<&mut Rows<u8>, Fault> {
    images.get_mut(disk as usize).ok_or(Fault::Line)
}

// Puts bytes into an image, from a place on.
fn put_at(image: &mut Rows<u8>, at: u64, bytes: &[u8]) -> Result<(), Fault> {
    for (byte, place) in bytes.iter().zip(at..u64::MAX) {
        let place = usize::try_from(place)?;
        if place >= image.len() {
            return Err(Fault::Line);
        }
        image.set(place, *byte);
    }
    Ok(())
}

/// Puts bytes on a disk.
pub(crate) fn put(images: &mut [Rows<u8>], patch: &Patch) -> Result<(), Fault> {
    put_at(
        image_at(images, patch.disk)?,
        patch.at,
        patch.bytes.as_slice(),
    )
}

// The bytes of sectors.
fn bytes_of(image: &Rows<u8>, first: u64, count: u64) -> Result<&[u8], Fault> {
    let from = usize::try_from(SECTOR.saturating_mul(first))?;
    let to = usize::try_from(SECTOR.saturating_mul(first.saturating_add(count)))?;
    image.as_slice().get(from..to).ok_or(Fault::Line)
}

/// Fills sectors with a byte.
pub(crate) fn fill(
    alloc: Global,
    images: &mut [Rows<u8>],
    span: Span,
    byte: u8,
) -> Result<(), Fault> {
    let image = image_at(images, span.disk)?;
    let count = bytes_of(image, span.first, span.count)?.len();
    let bytes = vec![in alloc; byte; count]?;
    put_at(image, SECTOR.saturating_mul(span.first), bytes.as_slice())
}

/// Copies sectors to those from another one on.
pub(crate) fn copy(
    alloc: Global,
    images: &mut [Rows<u8>],
    span: Span,
    disk: u16,
    first: u64,
) -> Result<(), Fault> {
    let from = image_at(images, span.disk)?;
    let bytes = Vec::from_slice(alloc, bytes_of(from, span.first, span.count)?)?;
    let to = image_at(images, disk)?;
    put_at(to, SECTOR.saturating_mul(first), bytes.as_slice())
}

// An image of so many sectors: what it had, and zeros.
fn resized(alloc: Global, image: &Rows<u8>, sectors: u64) -> Result<Rows<u8>, Fault> {
    let mut other = zero_image(alloc, sectors)?;
    let kept = image.len().min(other.len());
    put_at(&mut other, 0, image.as_slice().get(..kept).unwrap_or(&[]))?;
    Ok(other)
}

/// Gives a disk so many sectors.
pub(crate) fn resize(
    alloc: Global,
    images: &mut [Rows<u8>],
    disk: u16,
    sectors: u64,
) -> Result<(), Fault> {
    let image = image_at(images, disk)?;
    let other = resized(alloc, image, sectors)?;
    *image = other;
    Ok(())
}

/// Does what a line says of the disks by its verb and the words behind it.
pub(crate) fn edit(
    alloc: Global,
    images: &mut [Rows<u8>],
    verb: &str,
    rest: &str,
) -> Result<(), Fault> {
    match verb {
        "put" => put(images, &parse::patch(alloc, rest)?),
        "fill" => {
            let (span, byte) = parse::filling(rest)?;
            fill(alloc, images, span, byte)
        }
        "copy" => {
            let (span, (disk, first)) = parse::copying(rest)?;
            copy(alloc, images, span, disk, first)
        }
        "resize" => {
            let (disk, sectors) = parse::place(rest)?;
            resize(alloc, images, disk, sectors)
        }
        _ => Err(Fault::Line),
    }
}
