//! Bytes of the disks that are printed once a run has ended.

use crate::fault::Fault;
use crate::run::sector;
use lvm_memory::MemShelf;
use std::alloc::Global;

/// Bytes of a sector of a disk: the first one, and how many.
#[derive(Clone, Copy, Drop)]
pub struct Window {
    pub disk: u16,
    pub sector: u64,
    pub first: usize,
    pub count: usize,
}

// Prints the digits of the bytes in a window.
fn print_digits(
    alloc: Global,
    shelf: &MemShelf,
    window: Window,
    out: &mut Vec<u8>,
) -> Result<(), Fault> {
    let bytes = sector(shelf, window.disk, window.sector).ok_or(Fault::Line)?;
    let end = window.first.saturating_add(window.count);
    let part = bytes.get(window.first..end).ok_or(Fault::Line)?;
    let digits = hex::encode(alloc, part)?;
    Ok(out.extend_from_slice(digits.as_bytes())?)
}

/// Prints the digits of the bytes in each window; nothing where there is none.
pub(crate) fn print_shown(
    alloc: Global,
    shelf: &MemShelf,
    windows: &[Window],
    out: &mut Vec<u8>,
) -> Result<(), Fault> {
    let mut lead = "; shows ";
    for window in windows {
        out.extend_from_slice(lead.as_bytes())?;
        print_digits(alloc, shelf, *window, out)?;
        lead = " ";
    }
    Ok(())
}
