//! What was asked for and has not landed, in order of ids.
ghost use Rattle.std.specs.Prelude.{◌≡◌, ◌<◌, ◌≤◌, ◌+◌, ◌++◌, [], ◌∷◌, ◌↔◌, ℕ, length, None, IsTrue, IfOk, IfSome, IsSomeAnd, take};
ghost use Rattle.lvm_hold.specs.Conflicts.{IsInGroup};

use crate::chains::{HEADS, first_in_chain, head_of, last_of, link, place_of};
use crate::tail::Tail;
use lvm_num::Memory;
use std::alloc::Global;
use std::marker::Model;

/// What a request or a copy step asks for: `count` blocks from block `at` of a logical volume.
#[derive(Clone, Copy, PartialEq, Eq)]
pub struct Held {
    pub lv: u16,
    pub at: u64,
    pub count: u32,
    /// Whether the request writes. It says nothing of a copy step.
    pub write: bool,
    /// Whether it is a step of a copy that is being brought up. It takes a whole track group and
    /// conflicts with the writes to it.
    pub copy: bool,
}

/// One that is inside.
#[derive(Clone, Copy)]
pub struct Row {
    pub id: u64,
    pub ask: Held,
}

/// Those that are inside, in order of their ids. Contracts see their list and the room.
#[derive(Drop)]
pub struct Queue {
    room: u32,
    rows: Tail<Row>,
    // Of each row the next one of its chain, by its id.
    nexts: Tail<Option<u64>>,
    // Of each chain the first row.
    heads: Vec<Option<u64>>,
}

impl Model for Queue {
    ghost use Rattle.std.specs.Prelude.{◌≡◌};
    ghost use Rattle.lvm_hold.specs.Waiting.{Waiting};
    ghost use Rattle.lvm_hold.specs.Chains.{IsChained};

    ghost Value = { Waiting };

    ghost view = { λ q. record { room = q.room; rows = q.rows.items } };

    ghost invariant = { λ q. (q.rows.room ≡ q.room) × (q.nexts.room ≡ q.room) × IsChained q.rows.items q.nexts.items q.heads.items };
}

impl Queue {
    ghost use Rattle.lvm_hold.specs.Waiting.{IsInside, AreBelow, without, Blocks};
    ghost use Rattle.lvm_hold.specs.Chains.{last_of};

    /// Room for so many, which is all reserved here.
    pub fn new(alloc: Global, room: u32) -> Result<Queue, Memory>
        ensures { IfOk result (λ queue. queue ≡ record { room = room; rows = [] }) }
    {
        let mut heads = Vec::new(alloc);
        let (Ok(rows), Ok(nexts), Ok(())) = (
            Tail::new(alloc, room),
            Tail::new(alloc, room),
            heads.resize(HEADS, None),
        ) else {
            return Err(Memory);
        };
        Ok(Queue {
            room,
            rows,
            nexts,
            heads,
        })
    }

    /// A request or a copy step enters behind all that are inside.
    pub fn enter(&mut self, id: u64, ask: Held)
        requires room { length self.old.rows < self.old.room }
        requires last { AreBelow self.old.rows id }
        requires blocks { IsInGroup ask }
        ensures { self.new ≡ record self.old { rows = self.old.rows ++ record { id = id; ask = ask } ∷ [] } }
    {
        let head = head_of(&ask);
        let before = self.last_in(head);
        link(&mut self.heads, &mut self.nexts, before, head, Some(id));
        self.rows.push(Row { id, ask });
        self.nexts.push(None);
    }

    /// One that is inside leaves.
    pub fn leave(&mut self, id: u64)
        requires { IsInside self.old.rows id }
        ensures { self.new ≡ record self.old { rows = without id self.old.rows } }
    {
        if let Some(place) = place_of(self.rows.as_slice(), id) {
            let row = self.rows.at(place);
            let head = head_of(&row.ask);
            let before = self.last_before(place, head);
            let next = self.nexts.at(place);
            link(&mut self.heads, &mut self.nexts, before, head, next);
            self.rows.remove(place);
            self.nexts.remove(place);
        }
    }

    // The place of the last row of a chain, which is looked for only where the chain has a first.
    fn last_in(&self, head: usize) -> Option<usize>
        requires { head < 2048 }
        ensures place { result ≡ last_of head self.now.rows }
        ensures within { IfSome result (λ place. place < length self.now.rows) }
    {
        match self.heads[head] {
            None => None,
            Some(_) => last_of(self.rows.as_slice(), head),
        }
    }

    // The place of the last row of a chain before a place, which is looked for only where the chain doesn't begin there.
    fn last_before(&self, place: usize, head: usize) -> Option<usize>
        requires there { place < length self.now.rows }
        requires head { head < 2048 }
        ensures place { result ≡ last_of head (take place self.now.rows) }
        ensures within { IfSome result (λ before. before < place) }
    {
        match self.heads[head] {
            Some(first) if first == self.rows.at(place).id => None,
            _ => last_of(&self.rows.as_slice()[..place], head),
        }
    }

    /// Whether the one of this id is inside.
    pub fn has(&self, id: u64) -> bool
        ensures { IsTrue result ↔ IsInside self.now.rows id }
    {
        place_of(self.rows.as_slice(), id).is_some()
    }

    /// The least earlier id that one which is inside waits for.
    pub fn blocked_by(&self, id: u64) -> Option<u64>
        requires { IsInside self.now.rows id }
        ensures blocks { IfSome result (λ earlier. Blocks self.now.rows earlier id) }
        ensures least { (earlier : ℕ) → Blocks self.now.rows earlier id → IsSomeAnd result (λ least. least ≤ earlier) }
    {
        let rows = self.rows.as_slice();
        let place = place_of(rows, id)?;
        let this = self.rows.at(place);
        first_in_chain(rows, self.nexts.as_slice(), &self.heads, &this)
    }
}
