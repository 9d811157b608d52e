//! Laws over what a shelf does that heeds orders alone. Each call does nothing: its contract is the law.
ghost use Rattle.lvm_order_laws.specs.Alone.{IsUnharmed, AloneLaw, AlwaysLaw, UnharmedLaw, WellLaw};
ghost use Rattle.lvm_order_laws.specs.Worked.{fresh};

/// The power of a shelf that heeds orders alone was cut as often as it was ordered while it was on, after
/// each step, and at each moment of any steps.
pub fn cuts_are_ordered()
    ensures step { AloneLaw }
    ensures always { AlwaysLaw }
{}

/// Where no disk fails by order, none is ordered to fail and no cut is ordered, no transfer fails, the power isn't cut, and each
/// reap ends a transfer; so a shelf over which nothing has happened stays unharmed.
pub fn nothing_happens_by_itself()
    ensures well { WellLaw }
    ensures unharmed { UnharmedLaw }
{}

/// A shelf of one disk that was just made.
pub fn worked_shelf()
    ensures { IsUnharmed fresh }
{}
