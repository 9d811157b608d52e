//! Laws of the handing over. Each call does nothing: its contract is the law.
ghost use Rattle.lvm_handover.specs.Beginning.{MadeBegins, VariedOnBegins};
ghost use Rattle.lvm_handover.specs.Serving.{CommandsServe, MklvServes, OtherMembersServe, RmlvServes};
ghost use Rattle.lvm_handover.specs.Settling.{DrainedRests};

/// A session whose turns have nothing left to make, and of which nothing is open, rests: nothing is under way, no
/// transfer is out, and what is wanted is committed.
pub fn drained_rests()
    ensures { DrainedRests }
{}

/// A sound session that a command on its group leaves settled is sound with requests again, by what commands may change.
pub fn commands_serve()
    ensures { CommandsServe }
{}

/// So it is where it leaves the group other members, if what the session says that it began with is true of it.
pub fn other_members_serve()
    ensures { OtherMembersServe }
{}

/// So it is by the contract of `mklv`.
pub fn mklv_serves()
    ensures { MklvServes }
{}

/// And by that of `rmlv`.
pub fn rmlv_serves()
    ensures { RmlvServes }
{}

/// A session that a varyon or a mkvg has begun is sound with requests at once, by the contracts of these calls, whatever
/// stands on the disks.
pub fn begun_serves()
    ensures varied_on { VariedOnBegins }
    ensures made { MadeBegins }
{}
