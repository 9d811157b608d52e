//! The consistency record of a disk.
ghost use Rattle.std.specs.Prelude.{◌≡◌, ◌+◌, ◌<◌, ◌≤◌, ◌++◌, length, take, drop, replicate};
ghost use Rattle.std.specs.Int.{w64, to_be_bytes};
ghost use Rattle.std.specs.Option.{option_map, option_to_list};
ghost use Rattle.lvm_num.specs.Note.{entry_bytes, note_bytes, entry_at, note_in};
ghost use Rattle.lvm_rec.specs.Note.{noted_of};

use crate::numbers::{u16_at, u32_at, u64_at};
use arrayvec::ArrayVec;
use byteorder::{BigEndian, ByteOrder};
use lvm_num::NoteEntry;

const PLACES: usize = 62;

const FIRST: usize = 8;

const LAST: usize = 504;

/// What a disk's consistency record says: the moment of the session that wrote it, and the track
/// groups that it names.
#[derive(Drop)]
pub struct Note {
    pub stamp: u64,
    pub entries: ArrayVec<NoteEntry, 62>,
}

/// The sector that names these track groups, at the first places in their order.
pub fn write_note(stamp: u64, entries: &[NoteEntry]) -> [u8; 512]
    requires { length entries.now ≤ 62 }
    ensures { result ≡ note_bytes (record { stamp = stamp; entries = entries.now }) }
{
    let mut sector = begun(stamp);
    for (k, entry) in entries.iter().enumerate() {
        put_entry(&mut sector, FIRST + 8 * k, entry);
    }
    BigEndian::write_u64(&mut sector[LAST..], stamp);
    sector
}

// A sector of zeros behind a stamp.
fn begun(stamp: u64) -> [u8; 512]
    ensures { result ≡ to_be_bytes w64 stamp ++ replicate 504 0 }
{
    let mut sector = [0; 512];
    BigEndian::write_u64(&mut sector[..FIRST], stamp);
    sector
}

// Writes an entry over the eight zeros at a place.
fn put_entry(sector: &mut [u8; 512], at: usize, entry: &NoteEntry)
    requires { at + 8 ≤ 512 }
    ensures { sector.new ≡ take at sector.old ++ entry_bytes entry.now ++ drop (at + 8) sector.old }
{
    let mut bytes = [0; 8];
    BigEndian::write_u16(&mut bytes[..2], entry.lv);
    BigEndian::write_u32(&mut bytes[4..], entry.group);
    sector[at..at + 8].copy_from_slice(&bytes);
}

/// What the sector says, if its two stamps are equal.
pub fn read_note(sector: &[u8; 512]) -> Option<Note>
    ensures { option_map noted_of result ≡ note_in sector.now }
{
    let stamp = u64_at(sector, 0);
    if stamp != u64_at(sector, LAST) {
        return None;
    }
    let mut entries = ArrayVec::new();
    for k in 0..PLACES {
        if let Some(entry) = entry_at(sector, k) {
            entries.push(entry);
        }
    }
    Some(Note { stamp, entries })
}

// The entry at a place, if it counts there.
fn entry_at(sector: &[u8; 512], k: usize) -> Option<NoteEntry>
    requires { k < 62 }
    ensures { option_to_list result ≡ entry_at sector.now k }
{
    let at = FIRST + 8 * k;
    let lv = u16_at(sector, at);
    if lv == 0 || sector[at + 2] != 0 || sector[at + 3] != 0 {
        return None;
    }
    let group = u32_at(sector, at + 4);
    Some(NoteEntry { lv, group })
}
