//! Laws of what stands on the disks of a group. Each call does nothing: its contract is the law.
ghost use Rattle.lvm_even.specs.Commands.{EvenStays, FreeKeepsEven, BehindStays, CopiesServe, CleaningFollows};
ghost use Rattle.lvm_even.specs.Marking.{MarkedMayFollow, MarkedLeavesNone, NoneIsLeftBehind};
ghost use Rattle.lvm_even.specs.Examples.{PairsRest};

/// Usable copies stay even where each volume has no further usable copies and its data is as it was, or where they
/// are uniform, as zeros are; so they do where data is written to free partitions alone.
pub fn even_stays()
    ensures volumes { EvenStays }
    ensures free { FreeKeepsEven }
{}

/// No fresh copy is left behind on a missing member beside a usable one, where no mark goes and each member that
/// becomes missing leaves its fresh copies stale; so it is as long as what is wanted of the status leaves none.
pub fn behind_stays()
    ensures fewer { BehindStays }
    ensures wanted { NoneIsLeftBehind }
{}

/// A status in which the copies that are left behind are marked stale may follow the one before, and leaves none
/// behind.
pub fn marks_follow()
    ensures follows { MarkedMayFollow }
    ensures none { MarkedLeavesNone }
{}

/// A descriptor in which a volume has other copies may be committed, where the new ones are stale and each logical
/// partition keeps a fresh one on a member that shows the group.
pub fn copies_serve()
    ensures { CopiesServe }
{}

/// A status that calls volumes in mode passive dirty no more may be written where their usable copies are even.
pub fn cleaning_follows()
    ensures { CleaningFollows }
{}

/// Two disks that mirror a volume are at rest in each mode: active with notes and without, passive and clean or
/// dirty, and off; with both members or one that is lost, and after a power cut during a write.
pub fn pairs_rest()
    ensures { PairsRest }
{}
