//! Why a range wasn't read or written.
ghost use Rattle.std.specs.Prelude.{◌≡◌};
ghost use Rattle.std.specs.Option.{option_or};

/// Why a range wasn't read or written: how the first of its pieces landed that didn't end well, or that some piece
/// hasn't landed.
#[derive(Clone, Copy, PartialEq, Eq)]
pub enum RangeFault {
    /// The power was cut.
    Dark,
    /// Nothing was heard of the transfers that are out until the patience had run out. No answer was taken.
    Stuck,
    /// The members that aren't missing had too few votes to write, so many of so many, and the session is over.
    WentOff { have: u32, total: u32 },
    /// The write failed on each copy that was fresh.
    Lost,
    /// The read failed on each copy.
    ReadFailed,
    /// No copy of this logical partition, from 0, could be used.
    NoFresh { lp: u32 },
}

/// The first of two faults, if there is one.
pub fn first_fault(fault: Option<RangeFault>, next: Option<RangeFault>) -> Option<RangeFault>
    ensures { result ≡ option_or fault next }
{
    match fault {
        Some(why) => Some(why),
        None => next,
    }
}
