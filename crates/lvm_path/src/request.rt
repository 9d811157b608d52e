//! A request and its phases.
ghost use Rattle.std.specs.Prelude.{◌≡◌, ◌≤◌, ◌<◌, [], false, length, if◌then◌else◌};
ghost use Rattle.lvm_sched.specs.passed.NumDescriptorPolicy as policy;
ghost use Rattle.lvm_path.specs.declared.request.Phase.TheVariants as phase;
ghost use Rattle.lvm_path.specs.Asks.{is_write};
ghost use Rattle.lvm_path.specs.Next.{first_phase};

use crate::ask::Ask;
use crate::facts::{Facts, Next};
use crate::next::{next_chosen, next_held, next_marked, next_read, next_write};
use crate::target::{Target, any_is_begun, are_over, set_state, targets_of};
use arrayvec::ArrayVec;
use lvm_sched::TargetState;
use lvm_sched::below::{Mode, Policy};

/// How far a request is.
#[derive(Clone, Copy, PartialEq, Eq)]
pub enum Phase {
    /// It waits to be admitted.
    Held,
    /// It is a write with two targets or more on an active volume, and waits for an entry of the cache.
    WantEntry,
    /// It waits until the notes of the disks of its targets name its track group, or its volume is dirty.
    WantRecord,
    /// Its transfers may be started, or are under way.
    Data,
    /// It is a write whose transfers have all ended, and waits until the staleness that they call for is
    /// settled.
    WantStatus,
    /// It has an outcome.
    Landed,
}

/// A request from its submission to its landing.
#[derive(Drop)]
pub struct Request {
    /// Its number in the history of the run, from 1.
    pub id: u64,
    /// The number of the client who submitted it, from 1.
    pub client: u32,
    /// What it asks for.
    pub ask: Ask,
    /// How far it is.
    pub phase: Phase,
    /// The policy of its volume, once it is admitted.
    pub policy: Policy,
    /// Whether it holds a pin of its track group.
    pub pinned: bool,
    /// The copies to which a write goes, by copy numbers, or those that a read tries, in their order.
    pub targets: ArrayVec<Target, 4>,
}

impl Request {
    ghost use Rattle.lvm_path.specs.Targets.{is_begun};
    ghost use Rattle.lvm_path.specs.Next.{next_of, next_data, next_read, next_write, admitted, with_pin, with_start, with_end, with_landing};

    /// A request that is held.
    pub fn new(id: u64, client: u32, ask: Ask) -> Request
        ensures { result ≡ record { id = id; client = client; ask = ask; phase = phase.Held; policy = policy.Parallel; pinned = false; targets = record { items = [] } } }
    {
        Request {
            id,
            client,
            ask,
            phase: Phase::Held,
            policy: Policy::Parallel,
            pinned: false,
            targets: ArrayVec::new(),
        }
    }

    /// How far it is.
    pub fn phase(&self) -> Phase
        ensures { result ≡ self.now.phase }
    {
        self.phase
    }

    /// Whether a transfer of it was started.
    pub fn has_started(&self) -> bool
        ensures { result ≡ is_begun self.now.targets.items }
    {
        any_is_begun(&self.targets)
    }

    /// What it does next where these are the facts. One that isn't admitted, and a write that hasn't started
    /// its data, lands as NoFresh where nothing is pending and no copy is usable. A write lands as Done
    /// where a fresh copy has it, and else as Lost, once the staleness that is due is settled; a read as Got
    /// with the first copy that succeeds, and as ReadFailed where each has failed.
    pub fn next(&self, facts: Facts) -> Next
        requires { length self.now.targets.items ≤ 4 }
        ensures { result ≡ next_of self.now facts }
    {
        match self.phase {
            Phase::Held => next_held(facts),
            Phase::WantEntry => next_chosen(
                facts,
                if facts.pinned { Next::Wait } else { Next::Pin },
            ),
            Phase::WantRecord => {
                let ready = facts.named && facts.dirty && !facts.pending;
                next_chosen(facts, if ready { self.next_write() } else { Next::Wait })
            }
            Phase::Data => self.next_in_data(facts),
            Phase::WantStatus => next_marked(facts),
            Phase::Landed => Next::Wait,
        }
    }

    fn next_in_data(&self, facts: Facts) -> Next
        requires { length self.now.targets.items ≤ 4 }
        ensures { result ≡ (if is_write self.now.ask then next_data facts self.now else next_read self.now.targets.items) }
    {
        if !self.ask.is_write() {
            return next_read(&self.targets);
        }
        if self.has_started() {
            return self.next_write();
        }
        next_chosen(
            facts,
            if facts.pending {
                Next::Wait
            } else {
                self.next_write()
            },
        )
    }

    fn next_write(&self) -> Next
        requires { length self.now.targets.items ≤ 4 }
        ensures { result ≡ next_write self.now.policy self.now.targets.items }
    {
        next_write(self.policy, &self.targets)
    }

    /// It gets its targets, of which there are at most 4, or gets them again; a pin that it held is given up.
    pub fn admit(&mut self, policy: Policy, mode: Mode, targets: &[Target])
        requires { length targets.now ≤ 4 }
        ensures { self.new ≡ admitted self.old policy mode targets.now }
    {
        self.phase = first_phase(mode, self.ask.is_write(), targets.len() >= 2);
        self.policy = policy;
        self.pinned = false;
        self.targets = targets_of(targets);
    }

    /// Its track group is pinned, and it waits for its record.
    pub fn pinned(&mut self)
        ensures { self.new ≡ with_pin self.old }
    {
        self.phase = Phase::WantRecord;
        self.pinned = true;
    }

    /// The transfer of the target at a place, from 0, was started.
    pub fn started(&mut self, target: u8)
        requires { target < length self.old.targets.items }
        ensures { self.new ≡ with_start self.old target }
    {
        self.phase = Phase::Data;
        set_state(self.targets.as_mut_slice(), target, TargetState::Flying);
    }

    /// The transfer of the target at a place, from 0, has ended, well or badly.
    pub fn ended(&mut self, target: u8, ok: bool)
        requires { target < length self.old.targets.items }
        ensures { self.new ≡ with_end self.old target ok }
    {
        let state = if ok {
            TargetState::Done
        } else {
            TargetState::Failed
        };
        set_state(self.targets.as_mut_slice(), target, state);
        if self.ask.is_write() && are_over(&self.targets) {
            self.phase = Phase::WantStatus;
        }
    }

    /// It has landed, and gives up a pin that it held.
    pub fn landed(&mut self)
        ensures { self.new ≡ with_landing self.old }
    {
        self.phase = Phase::Landed;
        self.pinned = false;
    }
}

// How far a request is that has got its targets. A write whose copies may come to differ first sees to the
// record that its volume keeps.
fn first_phase(mode: Mode, write: bool, several: bool) -> Phase
    ensures { result ≡ first_phase mode write several }
{
    match mode {
        Mode::Active if write && several => Phase::WantEntry,
        Mode::Passive if write && several => Phase::WantRecord,
        _ => Phase::Data,
    }
}
