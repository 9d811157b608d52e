//! What a shelf of disks is asked, and what it answers.
ghost use Rattle.std.specs.Prelude.{◌≡◌, ◌⊎◌, ◌<◌, ◌≤◌, [], length, slice_get, true, false, Some};

use lvm_num::Pbuf;

/// The answer to a start of a transfer.
#[derive(Drop)]
pub enum Started {
    /// The transfer is under way, and has this ticket until it ends.
    Ticket(u64),
    /// The power is off. The buffer comes back as it was.
    Dark(Pbuf),
}

/// The answer to a reap.
#[derive(Drop)]
pub enum Reaped {
    /// No transfer has ended.
    Empty,
    /// The transfer with this ticket ended well. Of a write all sectors are durable, of a read the
    /// buffer has what stands on the disk.
    Done { ticket: u64, buf: Pbuf },
    /// The transfer with this ticket failed. Any of a write's sectors may be on the disk.
    Failed { ticket: u64, buf: Pbuf },
    /// The power is off. `freed` is the number of buffers that `next_freed` still gives.
    Dark { freed: u32 },
}

/// What a shelf for trials may be told to do.
#[derive(Clone, Copy)]
pub enum Arrange {
    /// Each transfer of this disk that ends from now on fails.
    Fail(u16),
    /// It fails no more.
    Heal(u16),
    /// The power is cut now. The word's bits say which of the sectors that were under way are written.
    Cut(u64),
}

/// A row of at most 128 disks, numbered from 0, of sectors of 512 bytes. Transfers are started, are
/// under way ("out", each with its ticket), and end in any order, one at each `reap`. A sector is
/// written whole or not at all, and what a `Done` wrote is durable. The power may be cut in any start
/// or reap: then all transfers are given up, and of each sector that was under way the old or the new
/// content stands.
pub trait Shelf {
    ghost use Rattle.lvm_disk.specs.Device.{Device, HasSectors};
    ghost use Rattle.lvm_disk.specs.Steps.{IsRange, StartGives, ReapGives, FreedGives, Lights, MayArrange, ArrangeGives};

    /// What is known of it: sizes, transfers under way, buffers to free, power and counts, and where it
    /// is told what stands on the disks and which ranges were written.
    ghost device: { Self → Device };

    /// How many disks it has.
    fn disks(&self) -> u16
        ensures number { result ≡ length (device self.now).sizes }
        ensures some { (1 ≤ result) × (result ≤ 128) };

    /// How many sectors a disk has. This never changes.
    fn sectors(&self, disk: u16) -> u64
        requires { disk < length (device self.now).sizes }
        ensures { slice_get (device self.now).sizes disk ≡ Some result };

    /// How many transfers are out.
    fn flights(&self) -> u32
        ensures { result ≡ length (device self.now).flights };

    /// How many transfers of a disk failed, other than reads that began below sector 4,096. The count
    /// stands still at `u64::MAX`.
    fn faults(&self, disk: u16) -> u64
        requires { disk < length (device self.now).sizes }
        ensures { result ≡ (device self.now).counts.faults disk };

    /// Starts a write of the buffer's first `count` sectors to the disk from sector `first` on.
    fn start_write(&mut self, disk: u16, first: u64, count: u32, buf: Pbuf) -> Started
        requires range { IsRange (device self.old) disk first count }
        requires room { length (device self.old).flights < 1024 }
        ensures { StartGives (device self.old) (device self.new) disk first count true buf result };

    /// Starts a read of `count` sectors of the disk from sector `first` on, into the buffer's first.
    fn start_read(&mut self, disk: u16, first: u64, count: u32, buf: Pbuf) -> Started
        requires range { IsRange (device self.old) disk first count }
        requires room { length (device self.old).flights < 1024 }
        ensures { StartGives (device self.old) (device self.new) disk first count false buf result };

    /// Ends one transfer, where one has come to its end.
    fn reap(&mut self) -> Reaped
        requires { (0 < length (device self.old).flights) ⊎ ((device self.old).power ≡ false) }
        ensures { ReapGives (device self.old) (device self.new) result };

    /// The next buffer of those whose transfers a power cut gave up, and None exactly where none is left.
    fn next_freed(&mut self) -> Option<Pbuf>
        ensures { FreedGives (device self.old) (device self.new) result };

    /// Puts the power on.
    fn light(&mut self)
        requires freed { (device self.old).freed ≡ [] }
        requires flights { (device self.old).flights ≡ [] }
        ensures { Lights (device self.old) (device self.new) };

    /// Arranges a fault or a power cut, where the shelf takes such orders.
    fn arrange(&mut self, what: Arrange) -> bool
        requires { MayArrange (device self.old) what }
        ensures { ArrangeGives (device self.old) (device self.new) what result };

    /// Where it is told what stands on the disks, each sector there has 512 bytes.
    ghost sectors_are_whole: { (shelf : Self) → HasSectors (device shelf) };
}
