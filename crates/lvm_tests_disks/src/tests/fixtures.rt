//! What the tests share: one assertion, disks and sinks in memory, plans of faults, and the start of a transfer.
ghost use Rattle.std.specs.Prelude.{◌≡◌, ◌≤◌, ◌<◌, [], None, length, IfNone, IfSome, IsTrue};
ghost use Rattle.lvm_disk.specs.Steps.{IsRange, StartGives};
ghost use Rattle.lvm_memory.specs.Media.{blank_disks_of};
ghost use Rattle.lvm_memory.specs.Memory.{bench_of, disks_of};
ghost use Rattle.lvm_memory.specs.Bench.{fresh_bench};

use lvm_disk::{Shelf, Started};
use lvm_io::MemSink;
use lvm_memory::{MemShelf, Planned, names_disks};
use lvm_num::{Pbuf, Rows};
use std::process::Abort;

/// Sectors of a disk from one on, so many, that are written or read: the first is filled with the word, and each other
/// with the next, wrapping.
#[derive(Clone, Copy)]
pub enum Transfer {
    Write(u16, u64, u32, u64),
    Read(u16, u64, u32, u64),
}

pub fn plan_of(rt: &(impl Abort + AllocGlobal), plan: &[Planned]) -> Rows<Planned>
    ensures { result ≡ plan.now }
{
    Rows::new(Vec::from_slice(rt.alloc(), plan).expect(rt, "memory"))
}

/// Ends the test where this isn't so, and says of what.
pub fn check(rt: &impl Abort, is: bool, what: &str)
    ensures { IsTrue is }
{
    assert!(rt; is, "{what}");
}

/// The same, with a place.
pub fn check_at(rt: &impl Abort, is: bool, what: &str, at: usize)
    ensures { IsTrue is }
{
    assert!(rt; is, "{what} {at}");
}

/// A sink with room for so many bytes.
pub fn sink(rt: &(impl Abort + AllocGlobal), room: usize) -> MemSink
    ensures { result ≡ record { bytes = []; room = room; fails = []; calls = 0; faults = 0; chosen = None; choices = 0 } }
{
    MemSink::new(rt.alloc(), room, Rows::empty(rt.alloc())).expect(rt, "memory")
}

/// Disks of zeros, of these numbers of sectors.
pub fn blank_shelf(rt: &(impl Abort + AllocGlobal), sizes: &[u64], plan: &[Planned]) -> MemShelf
    ensures bench { bench_of result ≡ fresh_bench (blank_disks_of sizes.now) plan.now 8 }
    ensures disks { disks_of result ≡ blank_disks_of sizes.now }
{
    assert!(rt; !sizes.is_empty() && sizes.len() <= 128);
    assert!(rt; names_disks(plan, sizes.len() as u16));
    MemShelf::new(rt.alloc(), sizes, plan_of(rt, plan), 8).expect(rt, "memory")
}

/// Starts a transfer of sectors from one on, where that may be asked.
pub fn start<S: Shelf>(
    shelf: &mut S,
    write: bool,
    disk: u16,
    at: (u64, u32),
    buf: Pbuf,
) -> Option<Started>
    ensures some { IfSome result (StartGives (S.device shelf.old) (S.device shelf.new) disk at.0 at.1 write buf) }
    ensures none { IfNone result (shelf.new ≡ shelf.old) }
    ensures asked { at.0 ≤ 1000000 → IsRange (S.device shelf.old) disk at.0 at.1 → length (S.device shelf.old).flights < 1024 → IfNone result ⊥ }
{
    let (first, count) = at;
    if disk >= shelf.disks() || count < 1 || count > 256 || shelf.flights() >= 1024 {
        return None;
    }
    if first > 1_000_000 || first + u64::from(count) > shelf.sectors(disk) {
        return None;
    }
    Some(if write {
        shelf.start_write(disk, first, count, buf)
    } else {
        shelf.start_read(disk, first, count, buf)
    })
}
