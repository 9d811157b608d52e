//! Faults that are injected into a shelf in memory.
ghost use Rattle.std.specs.Prelude.{◌≡◌, ◌<◌, ◌↔◌, IsTrue, true, false, length, replicate, IfOk, None, slice_set};
ghost use Rattle.lvm_memory.specs.Injection.{cut_or, NamesDisks};

use lvm_num::{Memory, Rows};
use std::alloc::Global;
use std::marker::Model;

/// What may be planned for a call.
#[derive(Clone, Copy)]
pub enum Act {
    /// Each transfer of this disk that ends from now on fails.
    Fail(u16),
    /// It fails no more.
    Heal(u16),
    /// The power is cut. Of the sectors that are under way, counted from 0 over the writes in order of
    /// their starts, the k-th is written where bit `k % 64` of the word is 1.
    Cut(u64),
    /// Of a write that fails from now on, the k-th sector is written where bit `k % 64` of the word is 1.
    /// Before the first, none is.
    Pick(u64),
    /// The transfer that is started next is passed over by this many reaps after its start.
    Delay(u32),
}

/// An act, and the call before which it is done. Starts and reaps are counted, from 1.
#[derive(Clone, Copy)]
pub struct Planned {
    pub call: u64,
    pub act: Act,
}

impl Planned {
    ghost use Rattle.lvm_memory.specs.Injection.{NamesDisk};

    /// Whether the act's disk, where it has one, is one of so many.
    pub fn names_disk(&self, disks: u16) -> bool
        ensures { IsTrue result ↔ NamesDisk disks self.now.act }
    {
        match self.act {
            Act::Fail(disk) => disk < disks,
            Act::Heal(disk) => disk < disks,
            _ => true,
        }
    }
}

/// Whether each disk that the plan names is one of so many.
pub fn names_disks(plan: &[Planned], disks: u16) -> bool
    ensures { IsTrue result ↔ NamesDisks disks plan.now }
{
    for planned in plan {
        if !planned.names_disk(disks) {
            return false;
        }
    }
    true
}

/// A plan, and what its acts have made so far.
#[derive(Drop)]
pub struct Injector {
    plan: Rows<Planned>,
    calls: u64,
    failing: Vec<bool>,
    pick: u64,
    delay: u32,
}

impl Model for Injector {
    ghost use Rattle.std.specs.Prelude.{length};
    ghost use Rattle.lvm_memory.specs.Injection.{Injection, NamesDisks};

    ghost Value = { Injection };

    ghost view = { λ i. record { plan = i.plan; calls = i.calls; failing = i.failing.items; pick = i.pick; delay = i.delay } };

    ghost invariant = { λ i. NamesDisks (length i.failing.items) i.plan };
}

impl Injector {
    ghost use Rattle.lvm_memory.specs.Injection.{NamesDisks, NamesDisk, fails, after_act, begun, cut_planned};

    /// A plan for so many disks, none of which fails yet.
    pub fn new(alloc: Global, disks: usize, plan: Rows<Planned>) -> Result<Injector, Memory>
        requires { NamesDisks disks plan }
        ensures { IfOk result (λ injector. injector ≡ record { plan = plan; calls = 0; failing = replicate disks false; pick = 0; delay = 0 }) }
    {
        match vec![in alloc; false; disks] {
            Ok(failing) => Ok(Injector {
                plan,
                calls: 0,
                failing,
                pick: 0,
                delay: 0,
            }),
            Err(_) => Err(Memory),
        }
    }

    /// How many calls have begun.
    pub fn calls(&self) -> u64
        ensures { result ≡ self.now.calls }
    {
        self.calls
    }

    /// Whether the disk's transfers fail.
    pub fn fails(&self, disk: u16) -> bool
        requires { disk < length self.now.failing }
        ensures { result ≡ fails self.now disk }
    {
        self.failing[disk as usize]
    }

    /// The word that picks among the sectors of failed writes.
    pub fn pick(&self) -> u64
        ensures { result ≡ self.now.pick }
    {
        self.pick
    }

    /// How many reaps pass over the transfer that starts now. The next is passed over by none.
    pub fn take_delay(&mut self) -> u32
        ensures taken { result ≡ self.old.delay }
        ensures none { self.new ≡ record self.old { delay = 0 } }
    {
        let delay = self.delay;
        self.delay = 0;
        delay
    }

    /// Replaces the plan. Calls are counted on, and what was done stays done.
    pub fn set_plan(&mut self, plan: Rows<Planned>)
        requires { NamesDisks (length self.old.failing) plan }
        ensures { self.new ≡ record self.old { plan = plan } }
    {
        self.plan = plan;
    }

    /// From now on the disk's transfers fail, or don't.
    pub fn set_failing(&mut self, disk: u16, fails: bool)
        requires { disk < length self.old.failing }
        ensures { self.new ≡ record self.old { failing = slice_set self.old.failing disk fails } }
    {
        self.failing[disk as usize] = fails;
    }

    fn act(&mut self, act: Act)
        requires { NamesDisk (length self.old.failing) act }
        ensures { self.new ≡ after_act act self.old }
    {
        match act {
            Act::Fail(disk) => self.set_failing(disk, true),
            Act::Heal(disk) => self.set_failing(disk, false),
            Act::Cut(_) => {}
            Act::Pick(word) => self.pick = word,
            Act::Delay(reaps) => self.delay = reaps,
        }
    }

    /// Begins a call: counts it, and does the acts that are planned for it. Answers the word of the first
    /// of them that cuts the power.
    pub fn begin(&mut self) -> Option<u64>
        ensures begun { self.new ≡ begun self.old }
        ensures cut { result ≡ cut_planned self.old }
    {
        self.calls = self.calls.saturating_add(1);
        let mut cut = None;
        for i in 0..self.plan.len() {
            let planned = self.plan.as_slice()[i];
            if planned.call == self.calls {
                self.act(planned.act);
                cut = cut.or(word_of(planned.act));
            }
        }
        cut
    }
}

// The word of an act that cuts the power.
fn word_of(act: Act) -> Option<u64>
    ensures { result ≡ cut_or act None }
{
    match act {
        Act::Cut(word) => Some(word),
        _ => None,
    }
}
