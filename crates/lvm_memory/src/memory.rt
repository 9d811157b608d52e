//! A shelf of disks in memory, with faults by plan.
ghost use Rattle.std.specs.Prelude.{◌≡◌, true, false, length, replicate, vec_capacity, IfOk};
ghost use Rattle.lvm_memory.specs.Flights.{flights_of, delays_of, NoDelays};
ghost use Rattle.lvm_memory.specs.Injection.{NamesDisks};
ghost use Rattle.lvm_memory.specs.Sound.{IsSound, IsUnplanned};
ghost use Rattle.std.proofs.Props.{props};

use crate::cutting::cut_flights;
use crate::disk::Disk;
use crate::flying::Flying;
use crate::injector::{Injector, Planned};
use crate::making::{blank_disks, image_disks};
use crate::queue::{delay_by_ticket, first_due, free_ticket, pass_over, take_flight};
use crate::room::rooms;
use crate::row::{finish_flight, tear_flight};
use crate::tally::Tally;
use crate::write_log::WriteLog;
use lvm_disk::{Arrange, Reaped, Shelf, Started};
use lvm_num::{Memory, Pbuf, Rows};
use std::alloc::Global;

/// Disks in memory. What happens at which call is planned. It tells the content of its disks always.
///
/// A transfer ends in order of the starts, at a reap, unless it is passed over. It fails while its disk
/// is failing by the plan and by arrangements. Each start and each reap counts as a call, and does what
/// is planned for it first. After it is made a shelf in memory needs no more memory.
#[derive(Drop)]
pub struct MemShelf {
    disks: Vec<Disk>,
    flights: Vec<Flying>,
    freed: Vec<Pbuf>,
    power: bool,
    // Whether some transfer may be passed over.
    delayed: bool,
    tally: Tally,
    injector: Injector,
    log: WriteLog,
    orders: u64,
    // How often a disk was ordered to fail.
    fails: u64,
    last: Option<Arrange>,
    // Whether it does nothing but what it is ordered.
    heeds: bool,
    ghost sound: { IsSound disks.items (flights_of flights.items) (length freed.items) (vec_capacity flights) (vec_capacity freed) power tally injector },
    ghost delays: { delayed ≡ false → NoDelays (delays_of flights.items) } by { Prim.hlevel props },
    ghost heeding: { heeds ≡ true → IsUnplanned injector (delays_of flights.items) } by { Prim.hlevel props },
}

impl MemShelf {
    ghost use Rattle.std.specs.Prelude.{◌≡◌, ◌⊎◌, ◌<◌, ◌≤◌, ◌%◌, ◌==◌, true, false, [], length, map, slice_index_or, Some, None, IfOk};
    ghost use Rattle.std.specs.List.{All, flat_map, position};
    ghost use Rattle.lvm_disk.specs.Device.{AreSectors};
    ghost use Rattle.lvm_memory.specs.Media.{media_of, sizes_of, blank_disks_of, sectors_in};
    ghost use Rattle.lvm_memory.specs.Injection.{NamesDisks};
    ghost use Rattle.lvm_memory.specs.Memory.{disks_of, device_of, bench_of};
    ghost use Rattle.lvm_disk.specs.Steps.{IsRange, Starts, StartGives, Waits, ReapGives};
    ghost use Rattle.lvm_memory.specs.Gate.{IsFailing, IsPassedOver};
    ghost use Rattle.lvm_memory.specs.Bench.{fresh_bench, with_plan, heeding_no_more, let_cut, DarkensBy, CallBegins, Departs, StartsAsPlanned, PassesFlightsOver, ReapsThen, ReapsAsPlanned};

    /// Disks of zeros, of these numbers of sectors. `log` is the number of writes that are told by their
    /// ranges; once one more was started, none is told.
    pub fn new(
        alloc: Global,
        sizes: &[u64],
        plan: Rows<Planned>,
        log: u32,
    ) -> Result<MemShelf, Memory>
        requires disks { (1 ≤ length sizes.now) × (length sizes.now ≤ 128) }
        requires plan { NamesDisks (length sizes.now) plan }
        ensures bench { IfOk result (λ shelf. bench_of shelf ≡ fresh_bench (blank_disks_of sizes.now) plan log) }
        ensures disks { IfOk result (λ shelf. disks_of shelf ≡ blank_disks_of sizes.now) }
    {
        MemShelf::from_disks(alloc, blank_disks(alloc, sizes)?, plan, log)
    }

    /// Disks with these contents, each of whole sectors.
    pub fn from_images(
        alloc: Global,
        images: Rows<Rows<u8>>,
        plan: Rows<Planned>,
        log: u32,
    ) -> Result<MemShelf, Memory>
        requires disks { (1 ≤ length images) × (length images ≤ 128) }
        requires whole { All (λ bytes. length bytes % 512 ≡ 0) images }
        requires plan { NamesDisks (length images) plan }
        ensures bench { IfOk result (λ shelf. bench_of shelf ≡ fresh_bench (map sectors_in images) plan log) }
        ensures disks { IfOk result (λ shelf. disks_of shelf ≡ map sectors_in images) }
    {
        MemShelf::from_disks(alloc, image_disks(alloc, images.as_slice())?, plan, log)
    }

    fn from_disks(
        alloc: Global,
        disks: Vec<Disk>,
        plan: Rows<Planned>,
        log: u32,
    ) -> Result<MemShelf, Memory>
        requires disks { (1 ≤ length disks.items) × (length disks.items ≤ 128) }
        requires plan { NamesDisks (length disks.items) plan }
        requires sectors { AreSectors (sizes_of disks.items) (media_of disks.items) }
        ensures bench { IfOk result (λ shelf. bench_of shelf ≡ fresh_bench disks.items plan log) }
        ensures disks { IfOk result (λ shelf. disks_of shelf ≡ disks.items) }
    {
        let count = disks.len();
        let heeds = plan.len() == 0;
        let (flights, freed, log) = rooms(alloc, log)?;
        let (tally, injector) = counters(alloc, count, plan)?;
        Ok(MemShelf {
            disks,
            flights,
            freed,
            power: true,
            delayed: false,
            tally,
            injector,
            log,
            orders: 0,
            fails: 0,
            last: None,
            heeds,
        })
    }

    /// What stands on a disk, sector by sector.
    pub fn image(&self, alloc: Global, disk: u16) -> Result<Vec<u8>, Memory>
        requires { disk < length (disks_of self.now) }
        ensures { IfOk result (λ image. image.items ≡ flat_map (λ sector. sector) (slice_index_or (disks_of self.now) disk [])) }
    {
        self.disks[disk as usize].image(alloc)
    }

    /// What stands in sector `at` of a disk, from 0.
    pub fn sector(&self, disk: u16, at: u64) -> &[u8; 512]
        requires disk { disk < length (disks_of self.now) }
        requires at { at < length (slice_index_or (disks_of self.now) disk []) }
        ensures { result.now ≡ slice_index_or (slice_index_or (disks_of self.now) disk []) at [] }
    {
        self.disks[disk as usize].sector(at)
    }

    /// How many starts and reaps there were. The count stands still at `u64::MAX`.
    pub fn calls(&self) -> u64
        ensures { result ≡ (bench_of self.now).injection.calls }
    {
        self.injector.calls()
    }

    /// Replaces the plan. Calls are counted on, and what was done stays done. From now on the device tells
    /// no more that it heeds orders alone.
    pub fn set_plan(&mut self, plan: Rows<Planned>)
        requires { NamesDisks (length (disks_of self.old)) plan }
        ensures { bench_of self.new ≡ with_plan (bench_of self.old) plan }
    {
        self.injector.set_plan(plan);
        self.heeds = false;
    }

    /// From now on the device tells no more that it heeds orders alone.
    pub(crate) fn heed_no_more(&mut self)
        ensures { bench_of self.new ≡ heeding_no_more (bench_of self.old) }
    {
        self.heeds = false;
    }

    // Cuts the power, where it is on.
    fn cut(&mut self, word: u64)
        ensures dark { DarkensBy word (let_cut word (device_of self.old)) (device_of self.new) }
        ensures off { (device_of self.new).power ≡ false }
        ensures rest { bench_of self.new ≡ record (bench_of self.old) { device = device_of self.new; delays = [] } }
    {
        if self.power {
            cut_flights(&mut self.disks, &mut self.flights, &mut self.freed, word);
            self.power = false;
            self.tally.count_cut();
        }
    }

    // Counts a call, and does what is planned before it.
    fn begin_call(&mut self)
        ensures { CallBegins (bench_of self.old) (bench_of self.new) }
    {
        if let Some(word) = self.injector.begin() {
            self.cut(word);
        }
    }

    // Starts a transfer, with the power on.
    fn depart(&mut self, disk: u16, first: u64, count: u32, write: bool, buf: Pbuf) -> u64
        requires power { (device_of self.old).power ≡ true }
        requires range { IsRange (device_of self.old) disk first count }
        requires few { length (device_of self.old).flights < 1024 }
        ensures starts { Starts (device_of self.old) (device_of self.new) (record { ticket = result; disk = disk; first = first; count = count; write = write; buf = buf }) }
        ensures departs { Departs (bench_of self.old) (bench_of self.new) (record { disk = disk; first = first; count = count }) write result }
    {
        let ticket = free_ticket(&self.flights);
        let delay = self.injector.take_delay();
        self.delayed |= delay > 0;
        match self.flights.push(Flying {
            ticket,
            disk,
            first,
            count,
            write,
            buf,
            delay,
        }) {
            Ok(()) => {}
            Err(_) => unreachable!(),
        }
        self.tally.count_start(disk);
        self.log.note(write, disk, first, count);
        ticket
    }

    fn start(&mut self, disk: u16, first: u64, count: u32, write: bool, buf: Pbuf) -> Started
        requires range { IsRange (device_of self.old) disk first count }
        requires few { length (device_of self.old).flights < 1024 }
        ensures gives { StartGives (device_of self.old) (device_of self.new) disk first count write buf result }
        ensures planned { StartsAsPlanned (bench_of self.old) (bench_of self.new) (record { disk = disk; first = first; count = count }) write result }
    {
        self.begin_call();
        if !self.power {
            return Started::Dark(buf);
        }
        Started::Ticket(self.depart(disk, first, count, write, buf))
    }

    // Ends the transfer at a place, with the power on.
    fn arrive(&mut self, place: usize) -> Reaped
        requires power { (device_of self.old).power ≡ true }
        requires first { position (λ n. n == 0) (bench_of self.old).delays ≡ Some place }
        ensures gives { ReapGives (device_of self.old) (device_of self.new) result }
        ensures planned { ReapsThen (bench_of self.old) (bench_of self.new) result }
    {
        let mut flying = take_flight(&mut self.flights, place, self.delayed);
        if self.injector.fails(flying.disk) {
            tear_flight(&mut self.disks, &flying, self.injector.pick(), 0);
            self.tally.count_failure(&flying);
            return Reaped::Failed {
                ticket: flying.ticket,
                buf: flying.buf,
            };
        }
        finish_flight(&mut self.disks, &mut flying);
        Reaped::Done {
            ticket: flying.ticket,
            buf: flying.buf,
        }
    }

    // Ends the transfer at a place as failed, with the power on.
    fn fail(&mut self, place: usize) -> Reaped
        requires unheeding { (device_of self.old).orders.alone ≡ None }
        requires power { (device_of self.old).power ≡ true }
        requires there { place < length (device_of self.old).flights }
        ensures gives { ReapGives (device_of self.old) (device_of self.new) result }
        ensures failed { IsFailing result }
    {
        let flying = take_flight(&mut self.flights, place, self.delayed);
        tear_flight(&mut self.disks, &flying, self.injector.pick(), 0);
        self.tally.count_failure(&flying);
        Reaped::Failed {
            ticket: flying.ticket,
            buf: flying.buf,
        }
    }

    // Passes over all transfers, with the power on.
    fn pass(&mut self)
        requires power { (device_of self.old).power ≡ true }
        requires out { 0 < length (device_of self.old).flights }
        requires none { position (λ n. n == 0) (bench_of self.old).delays ≡ None }
        ensures waits { Waits (device_of self.old) (device_of self.new) }
        ensures passes { PassesFlightsOver (bench_of self.old) (bench_of self.new) }
    {
        self.delayed = true;
        pass_over(&mut self.flights);
        self.tally.count_wait();
    }

    /// Has the transfers with this ticket passed over by so many reaps from now on.
    pub(crate) fn hold(&mut self, ticket: u64, delay: u32)
        requires unheeding { (device_of self.old).orders.alone ≡ None }
        ensures device { device_of self.new ≡ device_of self.old }
        ensures held { 0 < delay → IsPassedOver ticket (device_of self.new).flights (bench_of self.new).delays }
    {
        self.delayed = true;
        delay_by_ticket(&mut self.flights, ticket, delay);
    }

    /// Ends the oldest transfer as failed, unless the power is off, or is cut by plan.
    pub(crate) fn reap_failing(&mut self) -> Reaped
        requires unheeding { (device_of self.old).orders.alone ≡ None }
        requires out { (0 < length (device_of self.old).flights) ⊎ ((device_of self.old).power ≡ false) }
        ensures gives { ReapGives (device_of self.old) (device_of self.new) result }
        ensures failed { IsFailing result }
    {
        self.begin_call();
        if !self.power {
            return Reaped::Dark {
                freed: self.freed.len() as u32,
            };
        }
        self.fail(0)
    }

    fn reap_now(&mut self) -> Reaped
        requires { (0 < length (device_of self.old).flights) ⊎ ((device_of self.old).power ≡ false) }
        ensures gives { ReapGives (device_of self.old) (device_of self.new) result }
        ensures planned { ReapsAsPlanned (bench_of self.old) (bench_of self.new) result }
    {
        self.begin_call();
        if !self.power {
            return Reaped::Dark {
                freed: self.freed.len() as u32,
            };
        }
        match first_due(&self.flights) {
            Some(place) => self.arrive(place),
            None => {
                self.pass();
                Reaped::Empty
            }
        }
    }
}

impl Shelf for MemShelf {
    ghost use Rattle.std.specs.Prelude.{◌≡◌, ◌⊎◌, ◌<◌, true, false, [], length, None};
    ghost use Rattle.lvm_disk.specs.Steps.{IsRange, StartGives, ReapGives, FreedGives, Lights, MayArrange, ArrangeGives};
    ghost use Rattle.lvm_memory.specs.Memory.{device_of, bench_of};
    ghost use Rattle.lvm_memory.specs.Bench.{CutsAsPlanned, StartsAsPlanned, ReapsAsPlanned, ArrangesAsTold, IsPrompt, IsNoWait};

    ghost device = { device_of };

    ghost sectors_are_whole = { λ shelf. shelf.sound.sectors };

    fn disks(&self) -> u16 {
        self.disks.len() as u16
    }

    fn sectors(&self, disk: u16) -> u64 {
        self.disks[disk as usize].len()
    }

    fn flights(&self) -> u32 {
        self.flights.len() as u32
    }

    fn faults(&self, disk: u16) -> u64 {
        self.tally.faults(disk)
    }

    fn start_write(&mut self, disk: u16, first: u64, count: u32, buf: Pbuf) -> Started
        requires range { IsRange (device_of self.old) disk first count }
        requires room { length (device_of self.old).flights < 1024 }
        ensures gives { StartGives (device_of self.old) (device_of self.new) disk first count true buf result }
        ensures planned { StartsAsPlanned (bench_of self.old) (bench_of self.new) (record { disk = disk; first = first; count = count }) true result }
        ensures uncut { CutsAsPlanned (bench_of self.old) (bench_of self.new) }
        ensures prompt { IsPrompt (bench_of self.old) → IsPrompt (bench_of self.new) }
    {
        self.start(disk, first, count, true, buf)
    }

    fn start_read(&mut self, disk: u16, first: u64, count: u32, buf: Pbuf) -> Started
        requires range { IsRange (device_of self.old) disk first count }
        requires room { length (device_of self.old).flights < 1024 }
        ensures gives { StartGives (device_of self.old) (device_of self.new) disk first count false buf result }
        ensures planned { StartsAsPlanned (bench_of self.old) (bench_of self.new) (record { disk = disk; first = first; count = count }) false result }
        ensures uncut { CutsAsPlanned (bench_of self.old) (bench_of self.new) }
        ensures prompt { IsPrompt (bench_of self.old) → IsPrompt (bench_of self.new) }
    {
        self.start(disk, first, count, false, buf)
    }

    fn reap(&mut self) -> Reaped
        requires { (0 < length (device_of self.old).flights) ⊎ ((device_of self.old).power ≡ false) }
        ensures gives { ReapGives (device_of self.old) (device_of self.new) result }
        ensures planned { ReapsAsPlanned (bench_of self.old) (bench_of self.new) result }
        ensures uncut { CutsAsPlanned (bench_of self.old) (bench_of self.new) }
        ensures prompt { IsPrompt (bench_of self.old) → IsPrompt (bench_of self.new) }
        ensures waits { IsPrompt (bench_of self.old) → IsNoWait result }
    {
        self.reap_now()
    }

    fn next_freed(&mut self) -> Option<Pbuf>
        ensures gives { FreedGives (device_of self.old) (device_of self.new) result }
        ensures rest { bench_of self.new ≡ record (bench_of self.old) { device = device_of self.new } }
    {
        if self.freed.is_empty() {
            None
        } else {
            Some(self.freed.remove(0))
        }
    }

    fn light(&mut self)
        requires freed { (device_of self.old).freed ≡ [] }
        requires flights { (device_of self.old).flights ≡ [] }
        ensures gives { Lights (device_of self.old) (device_of self.new) }
        ensures rest { bench_of self.new ≡ record (bench_of self.old) { device = device_of self.new } }
    {
        self.power = true;
    }

    fn arrange(&mut self, what: Arrange) -> bool
        requires { MayArrange (device_of self.old) what }
        ensures gives { ArrangeGives (device_of self.old) (device_of self.new) what result }
        ensures told { ArrangesAsTold (bench_of self.old) (bench_of self.new) what }
        ensures always { result ≡ true }
    {
        self.orders = self.orders.saturating_add(1);
        self.last = Some(what);
        match what {
            Arrange::Fail(disk) => {
                self.fails = self.fails.saturating_add(1);
                self.injector.set_failing(disk, true)
            }
            Arrange::Heal(disk) => self.injector.set_failing(disk, false),
            Arrange::Cut(word) => self.cut(word),
        }
        true
    }
}

// What counts the transfers of so many disks, and the calls of a plan.
fn counters(alloc: Global, disks: usize, plan: Rows<Planned>) -> Result<(Tally, Injector), Memory>
    requires { NamesDisks disks plan }
    ensures tally { IfOk result (λ made. made.0 ≡ record { starts = replicate disks 0; misses = replicate disks 0; faults = replicate disks 0; cuts = 0; waits = 0 }) }
    ensures injector { IfOk result (λ made. made.1 ≡ record { plan = plan; calls = 0; failing = replicate disks false; pick = 0; delay = 0 }) }
{
    let tally = Tally::new(alloc, disks)?;
    let injector = Injector::new(alloc, disks, plan)?;
    Ok((tally, injector))
}
