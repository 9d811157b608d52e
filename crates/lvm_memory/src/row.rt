//! What transfers put on a row of disks in memory.
ghost use Rattle.std.specs.Prelude.{◌≡◌, ◌≤◌, ℕ, true, false};
ghost use Rattle.lvm_disk.specs.Device.{AreSectors};
ghost use Rattle.lvm_disk.specs.Steps.{Puts, ChangedAtMost, ReadsRange};
ghost use Rattle.lvm_memory.specs.Media.{KeepsDisks, media_of, sizes_of, written_by};
ghost use Rattle.lvm_memory.specs.Flights.{Lies, flight_of};

use crate::disk::Disk;
use crate::flying::Flying;

// Puts all sectors of a write on its disk.
fn land_flight(disks: &mut Vec<Disk>, flying: &Flying)
    requires lies { Lies (sizes_of disks.old.items) (flight_of flying.now) }
    requires write { flying.now.write ≡ true }
    requires sectors { AreSectors (sizes_of disks.old.items) (media_of disks.old.items) }
    ensures disks { KeepsDisks disks.old.items disks.new.items }
    ensures puts { Puts (flight_of flying.now) (media_of disks.old.items) (media_of disks.new.items) }
{
    disks[flying.disk as usize].put(flying.first, flying.count, &flying.buf);
}

/// Puts those sectors of a transfer on its disk that it writes and the word picks, the first of them
/// counted as `from`.
pub fn tear_flight(disks: &mut Vec<Disk>, flying: &Flying, word: u64, from: u32)
    requires lies { Lies (sizes_of disks.old.items) (flight_of flying.now) }
    requires few { from ≤ 262144 }
    requires sectors { AreSectors (sizes_of disks.old.items) (media_of disks.old.items) }
    ensures disks { KeepsDisks disks.old.items disks.new.items }
    ensures torn { (d s : ℕ) → media_of disks.new.items d s ≡ written_by word from (flight_of flying.now) (media_of disks.old.items) d s }
{
    if flying.write {
        disks[flying.disk as usize].put_some(flying.first, flying.count, &flying.buf, word, from);
    }
}

// Fills the buffer of a read from its disk.
fn fill_flight(disks: &Vec<Disk>, flying: &mut Flying)
    requires lies { Lies (sizes_of disks.now.items) (flight_of flying.old) }
    ensures same { flying.new ≡ record flying.old { buf = flying.new.buf } }
    ensures rest { ChangedAtMost flying.old.count flying.old.buf flying.new.buf }
    ensures read { ReadsRange (media_of disks.now.items) (flight_of flying.old) flying.new.buf }
{
    disks[flying.disk as usize].fill(flying.first, flying.count, &mut flying.buf);
}

/// Ends a transfer well: puts a write on its disk, or fills a read's buffer from it.
pub fn finish_flight(disks: &mut Vec<Disk>, flying: &mut Flying)
    requires lies { Lies (sizes_of disks.old.items) (flight_of flying.old) }
    requires sectors { AreSectors (sizes_of disks.old.items) (media_of disks.old.items) }
    ensures disks { KeepsDisks disks.old.items disks.new.items }
    ensures puts { Puts (flight_of flying.old) (media_of disks.old.items) (media_of disks.new.items) }
    ensures same { flying.new ≡ record flying.old { buf = flying.new.buf } }
    ensures kept { flying.old.write ≡ true → flying.new.buf ≡ flying.old.buf }
    ensures read { flying.old.write ≡ false → ReadsRange (media_of disks.old.items) (flight_of flying.old) flying.new.buf }
    ensures rest { ChangedAtMost flying.old.count flying.old.buf flying.new.buf }
{
    if flying.write {
        land_flight(disks, flying);
    } else {
        fill_flight(disks, flying);
    }
}
