//! A shelf in memory that keeps back a write.
ghost use Rattle.std.specs.Prelude.{◌≡◌, None};
ghost use Rattle.lvm_memory.specs.Memory.{device_of};
ghost use Rattle.std.proofs.Props.{props};

use crate::memory::MemShelf;
use lvm_disk::{Arrange, Reaped, Shelf, Started};
use lvm_num::{DATA_START, Pbuf};

// A transfer that is passed over by each reap, as long as it is so often told.
const HELD: u32 = u32::MAX;

// Where the first write of data is.
#[derive(Clone, Copy)]
enum Gate {
    // It wasn't started yet.
    Before,
    // It is kept back, under this ticket.
    Held(u64),
    // It has gone through, or was given up.
    Behind,
}

/// Disks in memory of which the first write of data is kept back until a second one is started. Where no other transfer is out
/// its reap answers that none has ended, as often as `limit` says; after that the write fails. It is for trials: whoever makes
/// one request after the other meets the limit. Data are the sectors from 4,096 on.
#[derive(Drop)]
pub struct GateShelf {
    inner: MemShelf,
    left: u32,
    gate: Gate,
    ghost unheeding: { (device_of inner).orders.alone ≡ None } by { Prim.hlevel props },
}

impl GateShelf {
    ghost use Rattle.std.specs.Prelude.{◌≡◌, ◌⊎◌, ◌<◌, ◌+◌, false, length};
    ghost use Rattle.lvm_disk.specs.Steps.{ReapGives};
    ghost use Rattle.lvm_memory.specs.Gate.{HoldsOn, IsKeptBack, KeepsBack, after_data};
    ghost use Rattle.lvm_memory.specs.Memory.{bench_of, device_of};
    ghost use Rattle.lvm_memory.specs.Bench.{heeding_no_more};

    /// Over these disks, which from now on tell no more that they heed orders alone.
    pub fn new(mut inner: MemShelf, limit: u32) -> GateShelf
        ensures inner { bench_of result.inner ≡ heeding_no_more (bench_of inner) }
        ensures left { result.left ≡ limit }
        ensures gate { result.gate ≡ Gate.Before }
    {
        inner.heed_no_more();
        GateShelf {
            inner,
            left: limit,
            gate: Gate::Before,
        }
    }

    /// The disks that it is over.
    pub fn inner(&self) -> &MemShelf
        ensures { device_of result.now ≡ ⟦<GateShelf as Shelf>⟧.device self.now }
    {
        &self.inner
    }

    /// The disks alone. A write that is kept back goes on to be passed over by so many reaps.
    pub fn into_inner(self) -> MemShelf
        ensures { device_of result ≡ ⟦<GateShelf as Shelf>⟧.device self }
    {
        let GateShelf { inner, .. } = self;
        inner
    }

    // A write of data was started: the first is kept back, and a second lets it go.
    fn pass(&mut self, ticket: u64)
        ensures device { device_of self.new.inner ≡ device_of self.old.inner }
        ensures gate { self.new.gate ≡ after_data self.old.gate ticket }
    {
        match self.gate {
            Gate::Before => {
                self.inner.hold(ticket, HELD);
                self.gate = Gate::Held(ticket);
            }
            Gate::Held(first) => {
                self.inner.hold(first, 0);
                self.gate = Gate::Behind;
            }
            Gate::Behind => {}
        }
    }

    // Reaps the disks while what is kept back is passed over.
    fn reap_inner(&mut self) -> Reaped
        requires { (0 < length (device_of self.old.inner).flights) ⊎ ((device_of self.old.inner).power ≡ false) }
        ensures gives { ReapGives (device_of self.old.inner) (device_of self.new.inner) result }
        ensures kept { IsKeptBack self.old.gate (bench_of self.old.inner) → KeepsBack self.old.gate 1 result }
        ensures gate { HoldsOn self.old.gate 1 self.new.gate result }
        ensures left { self.new.left ≡ self.old.left }
    {
        match self.inner.reap() {
            Reaped::Dark { freed } => {
                self.darken();
                Reaped::Dark { freed }
            }
            answer => answer,
        }
    }

    // Reaps the disks where only one transfer is out.
    fn reap_alone(&mut self) -> Reaped
        requires out { (0 < length (device_of self.old.inner).flights) ⊎ ((device_of self.old.inner).power ≡ false) }
        requires kept { IsKeptBack self.old.gate (bench_of self.old.inner) }
        ensures gives { ReapGives (device_of self.old.inner) (device_of self.new.inner) result }
        ensures kept { KeepsBack self.old.gate self.old.left result }
        ensures gate { HoldsOn self.old.gate self.old.left self.new.gate result }
        ensures left { (self.new.left ≡ self.old.left) ⊎ ((self.new.left + 1 ≡ self.old.left) × (result ≡ Reaped.Empty)) }
    {
        if self.left == 0 {
            self.gate = Gate::Behind;
            return self.inner.reap_failing();
        }
        match self.reap_inner() {
            Reaped::Empty => {
                self.left -= 1;
                Reaped::Empty
            }
            answer => answer,
        }
    }

    // The power is off: what was kept back is given up.
    fn darken(&mut self)
        ensures { self.new ≡ record self.old { gate = self.new.gate } }
    {
        if let Gate::Held(_) = self.gate {
            self.gate = Gate::Behind;
        }
    }
}

impl Shelf for GateShelf {
    ghost use Rattle.std.specs.Prelude.{◌≡◌, ◌⊎◌, ◌<◌, ◌+◌, true, false, length};
    ghost use Rattle.lvm_disk.specs.Steps.{IsRange, StartGives, ReapGives};
    ghost use Rattle.lvm_memory.specs.Gate.{HoldsOn, KeepsBack, LetsBy};
    ghost use Rattle.lvm_memory.specs.Memory.{device_of};

    ghost device = { λ shelf. device_of shelf.inner };

    ghost sectors_are_whole = { λ shelf. shelf.inner.sound.sectors };

    fn disks(&self) -> u16 {
        self.inner.disks()
    }

    fn sectors(&self, disk: u16) -> u64 {
        self.inner.sectors(disk)
    }

    fn flights(&self) -> u32 {
        self.inner.flights()
    }

    fn faults(&self, disk: u16) -> u64 {
        self.inner.faults(disk)
    }

    fn start_write(&mut self, disk: u16, first: u64, count: u32, buf: Pbuf) -> Started
        requires range { IsRange (device_of self.old.inner) disk first count }
        requires room { length (device_of self.old.inner).flights < 1024 }
        ensures gives { StartGives (device_of self.old.inner) (device_of self.new.inner) disk first count true buf result }
        ensures gate { LetsBy self.old.gate first result self.new.gate }
    {
        match self.inner.start_write(disk, first, count, buf) {
            Started::Ticket(ticket) => {
                if first >= DATA_START {
                    self.pass(ticket);
                }
                Started::Ticket(ticket)
            }
            Started::Dark(buf) => {
                self.darken();
                Started::Dark(buf)
            }
        }
    }

    fn start_read(&mut self, disk: u16, first: u64, count: u32, buf: Pbuf) -> Started {
        match self.inner.start_read(disk, first, count, buf) {
            Started::Ticket(ticket) => Started::Ticket(ticket),
            Started::Dark(buf) => {
                self.darken();
                Started::Dark(buf)
            }
        }
    }

    fn reap(&mut self) -> Reaped
        requires { (0 < length (device_of self.old.inner).flights) ⊎ ((device_of self.old.inner).power ≡ false) }
        ensures gives { ReapGives (device_of self.old.inner) (device_of self.new.inner) result }
        ensures kept { KeepsBack self.old.gate self.old.left result }
        ensures gate { HoldsOn self.old.gate self.old.left self.new.gate result }
        ensures left { (self.new.left ≡ self.old.left) ⊎ ((self.new.left + 1 ≡ self.old.left) × (result ≡ Reaped.Empty)) }
    {
        if let Gate::Held(first) = self.gate {
            self.inner.hold(first, HELD);
            if self.inner.flights() == 1 {
                return self.reap_alone();
            }
        }
        self.reap_inner()
    }

    fn next_freed(&mut self) -> Option<Pbuf> {
        self.inner.next_freed()
    }

    fn light(&mut self) {
        self.inner.light();
    }

    fn arrange(&mut self, what: Arrange) -> bool {
        if let Arrange::Cut(_) = what {
            self.darken();
        }
        self.inner.arrange(what)
    }
}
