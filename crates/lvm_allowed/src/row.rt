//! What is kept of an entry, and of a request once for all its entries.

use lvm_vol::below::Mode;
use lvm_vol::{Outcome, Vol};

/// A request as it was asked. Its blocks stand from `place` on.
#[derive(Clone, Copy)]
pub struct Ask {
    pub client: u32,
    pub vol: Vol,
    pub at: u64,
    pub count: u32,
    pub write: bool,
    pub place: u64,
}

/// An entry; a request is named by its number, from 1.
#[derive(Clone, Copy)]
pub enum Row {
    Making {
        lv: u16,
        blocks: u64,
        mode: Mode,
    },
    Made {
        lv: u16,
    },
    Split {
        from: u16,
        lv: u16,
    },
    Removing {
        vol: Vol,
    },
    Removed {
        vol: Vol,
    },
    Begun {
        id: u64,
    },
    Landed {
        id: u64,
        outcome: Outcome,
        started: bool,
    },
    Taken {
        client: u32,
        id: u64,
    },
    Cut,
    On {
        moment: u64,
    },
}
