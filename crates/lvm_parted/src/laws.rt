//! Laws of a volume that is split. Each call does nothing: its contract is the law.
ghost use Rattle.lvm_parted.specs.Parted.{SplitServes, SplitMayBeCommitted, SplitStaysEven, SplitLeavesNone};

/// Once the split is entered the blocks of both volumes are served: of the one that keeps some copies, and of the one
/// that has the others, each of which is usable.
pub fn split_serves()
    ensures { SplitServes }
{}

/// So the descriptor that names both may be committed.
pub fn split_may_be_committed()
    ensures { SplitMayBeCommitted }
{}

/// Usable copies stay even, and no fresh copy comes to be left behind.
pub fn split_stays_even()
    ensures even { SplitStaysEven }
    ensures none { SplitLeavesNone }
{}
