//! What a request is told of its session, and what it does then.

use lvm_vol::Outcome;

/// How the session stands for one request, at this moment.
#[derive(Clone, Copy)]
pub struct Facts {
    /// An earlier request that hasn't landed, or an earlier step of the copy that is being brought up,
    /// conflicts with it.
    pub blocked: bool,
    /// Some copy of its logical partition is wanted stale and not settled as stale, or another write there
    /// has started its data, has a target that counts as failed, and hasn't landed; or a move of a copy of it is
    /// done and only to be committed.
    pub pending: bool,
    /// It has its track group pinned in the cache.
    pub pinned: bool,
    /// The notes of the disks of all its targets name its track group. True of a volume that keeps no notes.
    pub named: bool,
    /// Its volume is settled as dirty. True of a volume that isn't passive.
    pub dirty: bool,
    /// The staleness that its failed targets call for is settled.
    pub marked: bool,
    /// Some copy of its logical partition is usable.
    pub usable: bool,
    /// It is a write, and its targets are no longer the copies to which it must go.
    pub changed: bool,
    /// A target that is fresh, and isn't wanted stale, has succeeded.
    pub kept: bool,
}

/// What a request does next.
#[derive(Clone, Copy, PartialEq, Eq)]
pub enum Next {
    /// Nothing, until one of its facts changes or a transfer of it ends.
    Wait,
    /// Its targets are chosen, or chosen again.
    Admit,
    /// Its track group is pinned.
    Pin,
    /// The transfer of the target at this place, from 0, is started.
    Start { target: u8 },
    /// It lands with this outcome.
    Land { outcome: Outcome },
}
