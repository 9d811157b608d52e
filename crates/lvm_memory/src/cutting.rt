//! A power cut over transfers that are under way in memory.
ghost use Rattle.std.specs.Prelude.{◌≡◌, ◌+◌, ◌≤◌, ℕ, length, vec_capacity};
ghost use Rattle.lvm_disk.specs.Device.{AreSectors};
ghost use Rattle.lvm_memory.specs.Media.{GiveBack, KeepsDisks, media_of, sizes_of, cut_by};
ghost use Rattle.lvm_memory.specs.Flights.{AllLie, flights_of};

use crate::disk::Disk;
use crate::flying::Flying;
use crate::row::tear_flight;
use lvm_num::Pbuf;

/// Gives up all transfers, each with those of its sectors written that the word picks, and their
/// buffers. The sectors are counted over the writes in order of their starts.
pub fn cut_flights(
    disks: &mut Vec<Disk>,
    flights: &mut Vec<Flying>,
    freed: &mut Vec<Pbuf>,
    word: u64,
)
    requires lie { AllLie (sizes_of disks.old.items) (flights_of flights.old.items) }
    requires few { length flights.old.items ≤ 1024 }
    requires room { length freed.old.items + length flights.old.items ≤ vec_capacity freed.old }
    requires sectors { AreSectors (sizes_of disks.old.items) (media_of disks.old.items) }
    ensures disks { KeepsDisks disks.old.items disks.new.items }
    ensures cut { (d s : ℕ) → media_of disks.new.items d s ≡ cut_by word 0 (flights_of flights.old.items) (media_of disks.old.items) d s }
    ensures buffers { GiveBack flights.old flights.new freed.old freed.new }
{
    let mut counted = 0;
    while !flights.is_empty() {
        let flying = flights.remove(0);
        tear_flight(disks, &flying, word, counted);
        counted += flying.writes();
        match freed.push(flying.buf) {
            Ok(()) => {}
            Err(_) => unreachable!(),
        }
    }
}
