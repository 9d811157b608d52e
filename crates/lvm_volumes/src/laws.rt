//! Laws of copies that are added and removed. Each call does nothing: its contract is the law.
ghost use Rattle.lvm_volumes.specs.Laws.{RemovalIsShown, MoreAreEven, FirstAreEven};

/// What a volume keeps after a removal of copies that isn't refused: of each logical partition a fresh one on a member
/// that shows the group.
pub fn removal_is_shown()
    ensures { RemovalIsShown }
{}

/// The usable copies of a group stay even with more copies of a volume, which are stale, and with fewer.
pub fn copies_stay_even()
    ensures more { MoreAreEven }
    ensures fewer { FirstAreEven }
{}
