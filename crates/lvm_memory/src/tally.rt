//! How often each thing happened to a shelf in memory.
ghost use Rattle.std.specs.Prelude.{◌≡◌, ◌<◌, length, replicate, IfOk};
ghost use Rattle.lvm_disk.specs.Counts.{Rose, RoseAt, next_count};
ghost use Rattle.lvm_memory.specs.Tally.{by_disk};

use crate::flying::Flying;
use lvm_num::Memory;
use std::alloc::Global;
use std::marker::Model;

/// Counts of 64 bits that stand still at their last value.
#[derive(Drop)]
pub struct Tally {
    starts: Vec<u64>,
    misses: Vec<u64>,
    faults: Vec<u64>,
    cuts: u64,
    waits: u64,
}

impl Model for Tally {
    ghost use Rattle.lvm_memory.specs.Tally.{Tallied};

    ghost Value = { Tallied };

    ghost view = { λ t. record { starts = t.starts.items; misses = t.misses.items; faults = t.faults.items; cuts = t.cuts; waits = t.waits } };
}

fn zeros(alloc: Global, count: usize) -> Result<Vec<u64>, Memory>
    ensures { IfOk result (λ v. v.items ≡ replicate count 0) }
{
    match vec![in alloc; 0u64; count] {
        Ok(v) => Ok(v),
        Err(_) => Err(Memory),
    }
}

// Counts one at a disk.
fn raise(counts: &mut [u64], disk: u16)
    requires { disk < length counts.old }
    ensures rose { RoseAt disk (by_disk counts.old) (by_disk counts.new) }
{
    let raised = counts[disk as usize].saturating_add(1);
    counts[disk as usize] = raised;
}

impl Tally {
    ghost use Rattle.lvm_disk.specs.Steps.{CountsFailure};
    ghost use Rattle.lvm_memory.specs.Flights.{flight_of};
    ghost use Rattle.lvm_memory.specs.Tally.{counts_of};

    /// Nothing happened yet, for this many disks.
    pub fn new(alloc: Global, disks: usize) -> Result<Tally, Memory>
        ensures { IfOk result (λ tally. tally ≡ record { starts = replicate disks 0; misses = replicate disks 0; faults = replicate disks 0; cuts = 0; waits = 0 }) }
    {
        Ok(Tally {
            starts: zeros(alloc, disks)?,
            misses: zeros(alloc, disks)?,
            faults: zeros(alloc, disks)?,
            cuts: 0,
            waits: 0,
        })
    }

    /// The failed transfers of a disk, other than failed reads of records.
    pub fn faults(&self, disk: u16) -> u64
        requires { disk < length self.now.faults }
        ensures { result ≡ by_disk self.now.faults disk }
    {
        self.faults[disk as usize]
    }

    /// A transfer of the disk started.
    pub fn count_start(&mut self, disk: u16)
        requires { disk < length self.old.starts }
        ensures rose { RoseAt disk (by_disk self.old.starts) (by_disk self.new.starts) }
        ensures long { length self.new.starts ≡ length self.old.starts }
        ensures same { self.new ≡ record self.old { starts = self.new.starts } }
    {
        raise(&mut self.starts, disk);
    }

    /// A transfer failed: a miss, if it was a read that began in the record area, and else a fault.
    pub fn count_failure(&mut self, flying: &Flying)
        requires misses { flying.now.disk < length self.old.misses }
        requires faults { flying.now.disk < length self.old.faults }
        ensures counted { CountsFailure (flight_of flying.now) (counts_of self.old) (counts_of self.new) }
        ensures starts { self.new.starts ≡ self.old.starts }
        ensures cuts { self.new.cuts ≡ self.old.cuts }
        ensures misses { length self.new.misses ≡ length self.old.misses }
        ensures faults { length self.new.faults ≡ length self.old.faults }
    {
        if !flying.write && flying.first < 4096 {
            raise(&mut self.misses, flying.disk);
        } else {
            raise(&mut self.faults, flying.disk);
        }
    }

    /// The power was cut.
    pub fn count_cut(&mut self)
        ensures rose { Rose self.old.cuts self.new.cuts }
        ensures once { self.new.cuts ≡ next_count self.old.cuts }
        ensures same { self.new ≡ record self.old { cuts = self.new.cuts } }
    {
        self.cuts = self.cuts.saturating_add(1);
    }

    /// A reap ended no transfer.
    pub fn count_wait(&mut self)
        ensures rose { Rose self.old.waits self.new.waits }
        ensures once { self.new.waits ≡ next_count self.old.waits }
        ensures same { self.new ≡ record self.old { waits = self.new.waits } }
    {
        self.waits = self.waits.saturating_add(1);
    }
}
