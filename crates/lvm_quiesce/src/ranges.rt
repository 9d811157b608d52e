//! A range of a disk in no group is read or written, once the transfers that are out have ended.
ghost use Rattle.std.specs.Prelude.{◌≡◌, ◌+◌, ◌^◌, ◌<◌, ◌≤◌, length, IfOk};
ghost use Rattle.lvm_session.specs.Sound.{HasPower};
ghost use Rattle.lvm_steps.specs.Requests.{at as moment_of};
ghost use Rattle.lvm_raw.specs.Raw.{without_facts};
ghost use Rattle.lvm_quiesce.specs.Ranges.{RangeKeepsEach, RangeRestGives, ReadOnceQuiet, WriteOnceQuiet};

use crate::ends::{Quiesced, quiesce};
use lvm_disk::Shelf;
use lvm_history::History;
use lvm_num::Rows;
use lvm_raw::{RawFault, check_range};
use lvm_transfer::{Patience, relight};
use std::alloc::Global;

/// Writes blocks of a disk as `lvm_raw::write_disk` does, on a shelf on which transfers may be out. These are ended once
/// `NoDisk`, `OutOfRange` and `HistoryFull` have been judged, and waited for out of the same patience. After a power cut
/// the power is on again.
pub fn write_disk<S: Shelf>(
    alloc: Global,
    shelf: &mut S,
    history: &mut History,
    disk: u16,
    at: u64,
    count: u32,
    word: u64,
    patience: &mut Patience,
) -> Result<(), RawFault>
    requires lit { HasPower (S.device shelf.old) }
    requires some { 1 ≤ count }
    ensures does { WriteOnceQuiet (without_facts history.old) disk at count word patience.old.left (moment_of (S.device shelf.old) history.old.facts) (moment_of (S.device shelf.new) history.new.facts) result }
    ensures keeps { RangeKeepsEach history.old.run disk patience.old.left patience.new.left (moment_of (S.device shelf.old) history.old.facts) (moment_of (S.device shelf.new) history.new.facts) result }
    ensures rooms { history.new ≡ record history.old { facts = history.new.facts } }
{
    match come_to_rest(shelf, history, disk, at, count, patience) {
        Ok(()) => lvm_raw::write_disk(alloc, shelf, history, disk, at, count, word, patience),
        Err(why) => Err(why),
    }
}

/// Reads blocks of a disk as `lvm_raw::read_disk` does, on a shelf on which transfers may be out. These are ended once
/// `NoDisk`, `OutOfRange` and `HistoryFull` have been judged, and waited for out of the same patience. After a power cut
/// the power is on again.
pub fn read_disk<S: Shelf>(
    alloc: Global,
    shelf: &mut S,
    history: &mut History,
    disk: u16,
    at: u64,
    count: u32,
    patience: &mut Patience,
) -> Result<Rows<[u8; 512]>, RawFault>
    requires lit { HasPower (S.device shelf.old) }
    requires some { 1 ≤ count }
    ensures does { ReadOnceQuiet (without_facts history.old) disk at count patience.old.left (moment_of (S.device shelf.old) history.old.facts) (moment_of (S.device shelf.new) history.new.facts) result }
    ensures got { IfOk result (λ blocks. (length blocks ≡ count) × (at + count < 2 ^ 64)) }
    ensures keeps { RangeKeepsEach history.old.run disk patience.old.left patience.new.left (moment_of (S.device shelf.old) history.old.facts) (moment_of (S.device shelf.new) history.new.facts) result }
    ensures rooms { history.new ≡ record history.old { facts = history.new.facts } }
{
    match come_to_rest(shelf, history, disk, at, count, patience) {
        Ok(()) => lvm_raw::read_disk(alloc, shelf, history, disk, at, count, patience),
        Err(why) => Err(why),
    }
}

// Ends the transfers that are out, where nothing is against the range. A power cut is entered, and the power put on.
fn come_to_rest<S: Shelf>(
    shelf: &mut S,
    history: &mut History,
    disk: u16,
    at: u64,
    count: u32,
    patience: &mut Patience,
) -> Result<(), RawFault>
    requires lit { HasPower (S.device shelf.old) }
    requires some { 1 ≤ count }
    ensures { RangeRestGives disk at count patience.old.left patience.new.left (S.device shelf.old) (S.device shelf.new) history.old history.new result }
{
    if let Err(why) = check_range(shelf, history, disk, at, count) {
        return Err(why);
    }
    match quiesce(shelf, patience) {
        Quiesced::Ended => Ok(()),
        Quiesced::Dark => {
            history.cut();
            relight(shelf);
            Err(RawFault::Dark)
        }
        Quiesced::Stuck => Err(RawFault::Stuck),
    }
}
