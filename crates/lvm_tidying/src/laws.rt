//! Laws of dirty marks. Each call does nothing: its contract is the law.
ghost use Rattle.lvm_tidying.specs.Cleaned.{CleaningIsMarking, MarkingStays, CleanedMayClean, CleanedShows};
ghost use Rattle.lvm_tidying.specs.Moments.{CleaningStaysKept, EmptyingOnceClean};
ghost use Rattle.lvm_tidying.specs.Quiet.{QuietDirtyIsEven, CopiedAreOne};
ghost use Rattle.lvm_tidying.specs.Recovered.{RecoveredByCleaning};

/// Where the usable copies are even and none is left behind, the marks of volumes may go of which each logical
/// partition has a usable copy: as by the status with which a group goes on once its dirty volumes are equal.
pub fn cleaned_is_marking()
    ensures marking { CleaningIsMarking }
    ensures stays { MarkingStays }
    ensures cleaned { CleanedMayClean }
    ensures shows { CleanedShows }
{}

/// So what was kept is kept at each moment while that status is written, behind the copying, and at each moment while
/// the notes are written thereafter.
pub fn cleaning_stays_kept()
    ensures cleaning { CleaningStaysKept }
    ensures emptying { EmptyingOnceClean }
{}

/// Where no note of a member that is there names anything and the usable copies of each volume that is dirty still are
/// one, the usable copies are even; so they are one where they were copied.
pub fn quiet_is_even()
    ensures even { QuietDirtyIsEven }
    ensures copied { CopiedAreOne }
{}

/// A group is recovered: its records are restated, then its named track groups and its dirty volumes are copied, then
/// the marks go that aren't needed, then its notes are emptied.
pub fn recovered_by_cleaning()
    ensures { RecoveredByCleaning }
{}
