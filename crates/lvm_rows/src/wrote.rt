//! Which areas of the disks a run wrote.

use crate::fault::Fault;
use lvm_num::Rows;

/// The areas in which the disks differ from what they were.
#[derive(Clone, Copy)]
pub struct Wrote {
    note: bool,
    status: bool,
    descriptor: bool,
    data: bool,
    elsewhere: bool,
}

impl Wrote {
    fn nothing() -> Wrote {
        Wrote {
            note: false,
            status: false,
            descriptor: false,
            data: false,
            elsewhere: false,
        }
    }

    // Each area, and whether something in it differs.
    fn areas(self) -> [(bool, &'static str); 5] {
        [
            (self.note, " note"),
            (self.status, " status"),
            (self.descriptor, " descriptor"),
            (self.data, " data"),
            (self.elsewhere, " elsewhere"),
        ]
    }

    // Counts a sector.
    fn count(&mut self, sector: u64) {
        match sector {
            8 => self.note = true,
            64..=191 => self.status = true,
            512..=2_815 => self.descriptor = true,
            0..=4_095 => self.elsewhere = true,
            _ => self.data = true,
        }
    }

    // Counts the sectors in which two images of a disk differ.
    fn compare(&mut self, before: &[u8], after: &[u8]) {
        for ((old, new), sector) in before.chunks(512).zip(after.chunks(512)).zip(0..u64::MAX) {
            if old != new {
                self.count(sector);
            }
        }
    }
}

/// Says which areas differ.
pub(crate) fn print_wrote(wrote: Wrote, out: &mut Vec<u8>) -> Result<(), Fault> {
    out.extend_from_slice(b"wrote")?;
    let bare = out.len();
    for (is, name) in wrote.areas() {
        if is {
            out.extend_from_slice(name.as_bytes())?;
        }
    }
    if out.len() == bare {
        out.extend_from_slice(b" nothing")?;
    }
    Ok(())
}

/// The areas in which these disks differ.
pub(crate) fn compared(before: &[Rows<u8>], after: &[Rows<u8>]) -> Wrote {
    let mut wrote = Wrote::nothing();
    for (old, new) in before.iter().zip(after) {
        wrote.compare(old.as_slice(), new.as_slice());
    }
    wrote
}
