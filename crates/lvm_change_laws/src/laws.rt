//! Laws of a change of members. Each call does nothing: its contract is the law.
ghost use Rattle.lvm_change_laws.specs.Turning.{ValidAreTwo, TransitionKeeps, StateTurnKeeps, TurnIsDone, ReadsAreTwo};
ghost use Rattle.lvm_change_laws.specs.Rule.{RuleIsChange, ChangeOpens, StatusesLeaveOpen, RerowedMayFollow, TurnWriteKeeps, TurnIsHeld, TurnIsShown};
ghost use Rattle.lvm_change_laws.specs.Spares.{SparesAreChange};
ghost use Rattle.lvm_change_laws.specs.Committed.{CommittedIsRead, CommittedServes, TurnIsCommitted, ErasingKeeps};
ghost use Rattle.lvm_change_laws.specs.Examples.{ThirdsMayBeErased};

/// While a group turns from one descriptor to its neighbour each history that was kept is kept, and once disks with votes enough by both show the next one
/// nothing else of the group is found.
pub fn turning_keeps()
    ensures two { ValidAreTwo }
    ensures keeps { TransitionKeeps }
    ensures states { StateTurnKeeps }
    ensures done { TurnIsDone }
    ensures statuses { ReadsAreTwo }
{}

/// What is committed is read, also where the members that aren't missing are too few to read; a turn may begin there, and is committed once it is over.
pub fn turns_are_committed()
    ensures read { CommittedIsRead }
    ensures serves { CommittedServes }
    ensures committed { TurnIsCommitted }
{}

/// A disk that has left may lose its records.
pub fn erasing_keeps()
    ensures { ErasingKeeps }
{}

/// A rule of votes may change, or the size or the spares of a group, or members may leave it: while the next descriptor is written what was kept is kept, and once it stands it
/// is the committed one.
pub fn groups_may_change()
    ensures rule { RuleIsChange }
    ensures spares { SparesAreChange }
    ensures opens { ChangeOpens }
    ensures stays { StatusesLeaveOpen }
    ensures follows { RerowedMayFollow }
    ensures keeps { TurnWriteKeeps }
    ensures held { TurnIsHeld }
    ensures shown { TurnIsShown }
{}

/// There is a group that a disk has left which may lose its records: of three members that were reduced to two, with quorum checking or without.
pub fn groups_may_erase()
    ensures { ThirdsMayBeErased }
{}
