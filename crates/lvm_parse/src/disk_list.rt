//! The disks of a line.
ghost use Rattle.std.specs.Prelude.{◌≡◌, ◌<◌, [], length, IfSome, MatchResult, Ok, Err};
ghost use Rattle.lvm_parse.specs.Reading.{further_disk, disks};
ghost use Rattle.lvm_parse.specs.Rests.{left};

use crate::operands::misfit;
use crate::rest::{Misfit, Rest};
use crate::scan::next_word;
use crate::words::disk_of;
use arrayvec::ArrayVec;

const MOST_DISKS: usize = 128;

// The disk that the word is, where it isn't among these, of which there are at most 127.
fn further_disk(disks: &[u16], word: &[u8]) -> Option<u16>
    ensures disk { result ≡ further_disk disks.now word.now }
    ensures room { IfSome result (λ disk. length disks.now < 128) }
{
    let disk = disk_of(word)?;
    if disks.contains(&disk) || disks.len() >= MOST_DISKS {
        None
    } else {
        Some(disk)
    }
}

/// DISK ..: one disk or more, all different, and the line ends.
pub fn disks(rest: Rest<'_>) -> Result<ArrayVec<u16, 128>, Misfit>
    ensures { MatchResult result (λ found. disks [] (left rest.entry) ≡ Ok found.items) (λ misfit. disks [] (left rest.entry) ≡ Err misfit) }
{
    let mut found = ArrayVec::new();
    let mut rest = rest;
    'disks: while let Some((word, behind)) = next_word(rest) {
        let Some(disk) = further_disk(&found, word.bytes) else {
            return Err(misfit(word.column));
        };
        found.push(disk);
        rest = behind;
    }
    if found.is_empty() {
        Err(misfit(rest.end()))
    } else {
        Ok(found)
    }
}
