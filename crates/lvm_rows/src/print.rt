//! What is printed of a run.

use crate::fault::Fault;
use crate::run::{Judged, Watched, judge};
use crate::shown::{Window, print_shown};
use crate::words::{Answered, Sinks};
use crate::wrote::{Wrote, print_wrote};
use lvm_memory::MemShelf;
use lvm_program::Ended;
use std::alloc::Global;
use std::collections::BTreeSet;

// Prints a text, and a line feed where it lacks its last one.
fn print_text(out: &mut Vec<u8>, text: &[u8]) -> Result<(), Fault> {
    out.extend_from_slice(text)?;
    if !text.is_empty() && !text.ends_with(b"\n") {
        out.push(b'\n')?;
    }
    Ok(())
}

// Prints with which status a run ended, and how many lines it refused.
fn print_status(alloc: Global, ended: &Ended<MemShelf>, out: &mut Vec<u8>) -> Result<(), Fault> {
    let status = ended.status.code();
    let refused = ended.refused;
    let text = format!(in alloc; "status {status}, refused {refused}")?;
    Ok(out.extend_from_slice(text.as_bytes())?)
}

/// Prints what is judged of a run.
pub(crate) fn print_judged(judged: Judged, out: &mut Vec<u8>) -> Result<(), Fault> {
    out.extend_from_slice(judged.history.as_bytes())?;
    Ok(out.extend_from_slice(judged.mirror.as_bytes())?)
}

/// Prints what a run wrote, how it ended, and what it shows of the disks.
pub(crate) fn print_run(
    alloc: Global,
    text: &[u8],
    ended: &Ended<MemShelf>,
    watched: Watched,
    windows: &[Window],
    out: &mut Vec<u8>,
) -> Result<(), Fault> {
    print_text(out, text)?;
    print_status(alloc, ended, out)?;
    print_judged(judge(ended, watched), out)?;
    print_shown(alloc, &ended.shelf, windows, out)?;
    Ok(out.push(b'\n')?)
}

// Prints a byte of answers, of which each stands in one line.
fn print_byte(out: &mut Vec<u8>, byte: u8) -> Result<(), Fault> {
    match byte {
        b'\n' => Ok(out.extend_from_slice(b", ")?),
        _ => Ok(out.push(byte)?),
    }
}

/// Prints answers in one line.
pub(crate) fn print_joined(answers: &[u8], out: &mut Vec<u8>) -> Result<(), Fault> {
    for byte in answers {
        print_byte(out, *byte)?;
    }
    Ok(())
}

/// Prints an edit of the disks, what a run over them wrote, what is judged of it, and which areas it wrote.
pub(crate) fn print_probe(
    edit: &str,
    text: &[u8],
    judged: Judged,
    wrote: Wrote,
    out: &mut Vec<u8>,
) -> Result<(), Fault> {
    out.extend_from_slice(edit.as_bytes())?;
    out.extend_from_slice(b": ")?;
    print_joined(text.strip_suffix(b"\n").unwrap_or(text), out)?;
    print_judged(judged, out)?;
    out.extend_from_slice(b"; ")?;
    print_wrote(wrote, out)?;
    Ok(out.push(b'\n')?)
}

// Prints what a run gave back beside its replies: its history's number and entries, and whether it made disks for
// itself.
fn print_history(alloc: Global, ended: &Ended<MemShelf>, out: &mut Vec<u8>) -> Result<(), Fault> {
    if let Some(history) = &ended.history {
        let (run, entries) = (history.run(), history.len());
        let text = format!(in alloc; ", history {run} of {entries} entries")?;
        out.extend_from_slice(text.as_bytes())?;
    }
    if ended.sim.is_some() {
        out.extend_from_slice(b", disks of its own")?;
    }
    Ok(())
}

fn are_zeros(bytes: &[u8]) -> bool {
    for byte in bytes {
        if *byte != 0 {
            return false;
        }
    }
    true
}

// Prints which image a run made.
fn print_image(alloc: Global, image: &[u8], out: &mut Vec<u8>) -> Result<(), Fault> {
    let count = image.len();
    if count == 0 {
        return Ok(());
    }
    let what = if are_zeros(image) { "zeros" } else { "bytes" };
    let text = format!(in alloc; ", an image of {count} {what}")?;
    Ok(out.extend_from_slice(text.as_bytes())?)
}

/// Prints what a run by words wrote, and what it said beside.
pub(crate) fn print_words(sinks: &Sinks, out: &mut Vec<u8>) -> Result<(), Fault> {
    print_text(out, sinks.out.bytes())?;
    print_text(out, sinks.err.bytes())
}

/// Prints how a run by words ended, and what it gave back.
pub(crate) fn print_given(
    alloc: Global,
    answered: &Answered,
    watched: Watched,
    out: &mut Vec<u8>,
) -> Result<(), Fault> {
    print_status(alloc, &answered.ended, out)?;
    print_judged(judge(&answered.ended, watched), out)?;
    print_history(alloc, &answered.ended, out)?;
    print_image(alloc, answered.sinks.images.bytes(), out)?;
    Ok(out.push(b'\n')?)
}

/// Prints a line.
pub(crate) fn print_line(out: &mut Vec<u8>, line: &[u8]) -> Result<(), Fault> {
    out.extend_from_slice(line)?;
    Ok(out.push(b'\n')?)
}

/// Prints lines.
pub(crate) fn print_lines(out: &mut Vec<u8>, lines: &BTreeSet<Vec<u8>>) -> Result<(), Fault> {
    for line in lines {
        print_line(out, line)?;
    }
    Ok(())
}
