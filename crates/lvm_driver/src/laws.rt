//! Laws: which sessions may begin, which copies may move, and what turns leave of a copy that is open.
ghost use Rattle.lvm_driver.specs.Beginnings.{EachModeBegins, WholeGroupsBegin};
ghost use Rattle.lvm_driver.specs.Commits.{MirrorsMayCommit};
ghost use Rattle.lvm_driver.specs.Drains.{DrainedHasEnded};
ghost use Rattle.lvm_driver.specs.Moves.{MirrorsMayMove};

/// A session of a group of which no member is missing may begin, whatever the modes of its volumes.
pub fn whole_groups_begin()
    ensures { WholeGroupsBegin }
{}

/// So may one of three disks with a mirrored volume that is active, passive, or keeps no records.
pub fn each_mode_begins()
    ensures { EachModeBegins }
{}

/// The second copy of its volume may begin to move to the third disk, and once it has moved that may be committed.
pub fn mirrors_may_move()
    ensures begins { MirrorsMayMove }
    ensures commits { MirrorsMayCommit }
{}

/// Once turns find nothing to do, a copy that is open doesn't run: it has ended, or it is a move that is done.
pub fn drained_copies_have_ended()
    ensures { DrainedHasEnded }
{}
