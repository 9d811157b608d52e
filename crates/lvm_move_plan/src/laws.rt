//! Laws of moves that are planned. Each call does nothing: its contract is the law.
ghost use Rattle.lvm_move_plan.specs.Laws.{EachMoves, NoneIsLeft, PlacesAreLowest, PlansEmptyDisks, PlansGoOn, StandingAreListed, StandingRise};
ghost use Rattle.lvm_move_plan.specs.Worked.{PlansAreAsWorked};

/// The copies that stand on a disk, and no others, are listed, each once, in the order of volumes, logical partitions and
/// copies.
pub fn standing_are_listed()
    ensures listed { StandingAreListed }
    ensures rise { StandingRise }
{}

/// Each copy that stands on the first disk moves, in this order, to the lowest partition of the second that is free then.
pub fn each_moves()
    ensures copies { EachMoves }
    ensures places { PlacesAreLowest }
{}

/// The first of the moves may be made, and leaves the others to be made; once none is left, no copy that is asked for stands on
/// the first disk.
pub fn plans_go_on()
    ensures next { PlansGoOn }
    ensures last { NoneIsLeft }
{}

/// Once all moves are made the group is valid, and no copy that is asked for stands on the first disk.
pub fn plan_empties()
    ensures { PlansEmptyDisks }
{}

/// The plans of a volume that is mirrored on two of three disks are as worked out by hand.
pub fn plans_are_as_worked()
    ensures { PlansAreAsWorked }
{}
