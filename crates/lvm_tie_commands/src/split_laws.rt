//! A law of sessions over the split of a volume. The call does nothing: its contract is the law.
ghost use Rattle.lvm_tie_commands.specs.SplitServing.{SplitLeavesServing};

/// A sound session that `split` leaves on is sound with requests.
pub fn split_leaves_serving()
    ensures { SplitLeavesServing }
{}
