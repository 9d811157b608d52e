//! Laws of sessions before, between and after commands on their groups. Each call does nothing: its contract is the law.
ghost use Rattle.lvm_tie_commands.specs.Coming.{MadeAlone, MadeServes, VariedIsMadeEven, VariedOnServes};
ghost use Rattle.lvm_tie_commands.specs.Examples.{PairsServe};
ghost use Rattle.lvm_tie_commands.specs.Settled.{SettledServes, SettledTies, TiedHolds, TiedSettles};

/// A settled session is tied, with an earlier history that has no request of its run: where it is sound with requests
/// too, its notes are home, and each member that wasn't missing when it began shows the group.
pub fn settled_ties()
    ensures { SettledTies }
{}

/// So it is good, where it is settled after each earlier history with which its run may have begun.
pub fn settled_serves()
    ensures { SettledServes }
{}

/// And a tied session at rest is settled again, with votes enough to write: its disks hold what it says.
pub fn tied_settles()
    ensures { TiedSettles }
{}

/// Its disks hold what it says, also where other groups stand beside its own, with votes enough to write and descriptors
/// whose next ones spare the newest.
pub fn tied_holds()
    ensures { TiedHolds }
{}

/// A session that a varyon has begun is good, by the contract of that call, where its notes are home, its usable copies
/// are even, and on each crash image whatever any disks find is of one group.
pub fn varied_on_serves()
    ensures { VariedOnServes }
{}

/// Its notes are home and its copies even where those of volumes that are dirty still are equal, by the contract of that
/// call, and its disks keep a history, as they kept one before.
pub fn varied_is_made_even()
    ensures { VariedIsMadeEven }
{}

/// A session that a mkvg has begun is good, by the contract of that call, where on each crash image whatever any disks
/// find is of one group.
pub fn made_serves()
    ensures { MadeServes }
{}

/// Where that mkvg was without force, and the disks kept some history before, it is.
pub fn made_alone()
    ensures { MadeAlone }
{}

/// There are such sessions: of two disks that mirror a volume, in each mode, dirty or not, with both members or one that is
/// lost, after a power cut during a write. They are tied, and may be left; and what is asked beside the contracts of the
/// calls that begin a session holds of them.
pub fn pairs_serve()
    ensures { PairsServe }
{}
