//! Where the rows of a history stand: each row in a chain, so that those that tell of a block are found from the newest
//! back, and each request by its number.
ghost use Rattle.std.specs.Prelude.{◌≡◌, ◌<◌, ◌≤◌, ◌+◌, ◌-◌, ◌/◌, ◌++◌, [], ◌∷◌, length, IfOk, IfSome, slice_get, slice_set, slice_index_or, false, true, vec_len, vec_capacity, ◌^◌};
ghost use Rattle.lvm_chains.specs.Places.{chain_of, number_of, plain_chain, newest, empty_index, no_step, with_landing, with_taking};

use lvm_allowed::Row;
use lvm_vol::Vol;
use lvm_vol::below::Memory;
use std::alloc::Global;
use std::marker::Model;

/// How many chains there are: 4,096 of requests, one of what shapes volumes and of cuts, and one of the rest.
const CHAINS: usize = 4098;

/// The chain of the rows that make, remove or split volumes, and of cuts.
pub const SHAPING: u16 = 4096;

/// The chain of the rows that tell nothing of a block.
pub const REST: u16 = 4097;

/// How far a request has come.
#[derive(Clone, Copy)]
pub struct Step {
    /// The place of the row by which it landed, from 1; 0 where it hasn't.
    pub landed: u32,
    /// Whether its answer is taken.
    pub taken: bool,
}

/// The chain of a row, and the place of the one before it there, from 1; 0 where it is the first.
#[derive(Clone, Copy)]
pub struct Link {
    pub chain: u16,
    pub before: u32,
}

/// The chain of each row, and how far each request has come. Contracts see both lists and the room.
#[derive(Drop)]
pub struct Index {
    room: u32,
    links: Vec<Link>,
    heads: Vec<u32>,
    steps: Vec<Step>,
}

impl Model for Index {
    ghost use Rattle.lvm_chains.specs.Places.{Indexed};

    ghost Value = { Indexed };

    ghost use Rattle.lvm_chains.specs.Linked.{index_shown, IsLinked};

    ghost view = { index_shown };

    ghost invariant = { IsLinked };
}

impl Index {
    /// Room for so many rows and a third as many requests, which is all reserved here.
    pub fn new(alloc: Global, room: u32) -> Result<Index, Memory>
        ensures { IfOk result (λ index. index ≡ empty_index room) }
    {
        let mut heads = Vec::new(alloc);
        let (Ok(links), Ok(steps), Ok(())) = (
            Vec::with_capacity(alloc, room as usize),
            Vec::with_capacity(alloc, room as usize / 3),
            heads.resize(CHAINS, 0),
        ) else {
            return Err(Memory);
        };
        Ok(Index {
            room,
            links,
            heads,
            steps,
        })
    }

    /// A row is added in a chain.
    pub fn add(&mut self, chain: u16)
        requires room { length self.old.chains < self.old.room }
        requires chain { chain < 4098 }
        ensures { self.new ≡ record self.old { chains = self.old.chains ++ chain ∷ [] } }
    {
        let before = self.heads[chain as usize];
        append(&mut self.links, Link { chain, before });
        self.heads[chain as usize] = self.links.len() as u32;
    }

    /// A request is added that has just begun.
    pub fn begin(&mut self)
        requires { length self.old.steps < self.old.room / 3 }
        ensures { self.new ≡ record self.old { steps = self.old.steps ++ no_step ∷ [] } }
    {
        append(
            &mut self.steps,
            Step {
                landed: 0,
                taken: false,
            },
        );
    }

    /// The request of this number lands by the newest row.
    pub fn land(&mut self, id: u64)
        requires { id - 1 < length self.old.steps }
        ensures { self.new ≡ record self.old { steps = with_landing self.old.steps (id - 1) (length self.old.chains) } }
    {
        self.steps[id.saturating_sub(1) as usize].landed = self.links.len() as u32;
    }

    /// The answer of the request of this number is taken.
    pub fn take(&mut self, id: u64)
        requires { id - 1 < length self.old.steps }
        ensures { self.new ≡ record self.old { steps = with_taking self.old.steps (id - 1) } }
    {
        self.steps[id.saturating_sub(1) as usize].taken = true;
    }

    /// How far the request of this number has come; as one that has just begun, if there is none.
    pub fn step(&self, id: u64) -> Step
        ensures { result ≡ slice_index_or self.now.steps (id - 1) no_step }
    {
        match self.steps.get(id.saturating_sub(1) as usize) {
            Some(step) => *step,
            None => Step {
                landed: 0,
                taken: false,
            },
        }
    }

    /// How many rows there are.
    pub fn len(&self) -> u32
        ensures { result ≡ length self.now.chains }
    {
        self.links.len() as u32
    }

    /// The place of the newest row of a chain among the first so many; 0 where none is of it.
    pub fn newest(&self, chain: u16, among: u32) -> u32
        requires chain { chain < 4098 }
        requires among { among ≤ length self.now.chains }
        ensures { result ≡ newest chain self.now.chains among }
    {
        let mut place = self.heads[chain as usize];
        while place > among {
            place = self.links[(place - 1) as usize].before;
        }
        place
    }

    /// The place of the newest of a chain among the first so many, where `place` is that of the newest among them and
    /// the row behind them.
    pub fn older(&self, chain: u16, place: u32, among: u32) -> u32
        requires among { among < length self.now.chains }
        requires place { place ≡ newest chain self.now.chains (among + 1) }
        ensures { result ≡ newest chain self.now.chains among }
    {
        if place > among {
            self.links[among as usize].before
        } else {
            place
        }
    }
}

/// The number by which a volume's chains are told from another's.
fn number_of(vol: Vol) -> u64
    ensures number { result ≡ number_of vol }
    ensures few { result < 2 ^ 17 }
{
    match vol {
        Vol::Lv(lv) => u64::from(lv),
        Vol::Disk(disk) => 512 + u64::from(disk),
    }
}

/// The chain of the requests of a track group of a volume.
pub fn chain_of(vol: Vol, group: u64) -> u16
    requires { group < 2 ^ 56 }
    ensures chain { result ≡ chain_of vol group }
    ensures within { result < 4096 }
{
    ((31 * number_of(vol) + group) % 4096) as u16
}

/// The chain of a row that isn't about a request's beginning or landing.
pub fn plain_chain(row: &Row) -> u16
    ensures chain { result ≡ plain_chain row.now }
    ensures within { result < 4098 }
{
    match *row {
        Row::Making { .. } | Row::Split { .. } | Row::Removed { .. } | Row::Cut => SHAPING,
        _ => REST,
    }
}

// Adds an item to items that have room.
fn append<T>(items: &mut Vec<T>, item: T)
    requires { vec_len items.old < vec_capacity items.old }
    ensures items { items.new.items ≡ items.old.items ++ item ∷ [] }
    ensures len { vec_len items.new ≡ vec_len items.old + 1 }
    ensures capacity { vec_capacity items.new ≡ vec_capacity items.old }
{
    items.push_reserved(item);
}
