//! Transfers that are under way in memory.
ghost use Rattle.std.specs.Prelude.{◌≡◌};

use lvm_num::Pbuf;

/// A transfer that was started and has not ended.
#[derive(Drop)]
pub struct Flying {
    pub ticket: u64,
    pub first: u64,
    pub buf: Pbuf,
    pub count: u32,
    /// How many reaps still pass it over.
    pub delay: u32,
    pub disk: u16,
    pub write: bool,
}

impl Flying {
    ghost use Rattle.lvm_memory.specs.Flights.{writes, flight_of};

    /// How many sectors it writes.
    pub fn writes(&self) -> u32
        ensures { result ≡ writes (flight_of self.now) }
    {
        if self.write { self.count } else { 0 }
    }
}
