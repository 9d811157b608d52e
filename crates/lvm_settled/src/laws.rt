//! Laws of settled sessions. Each call does nothing: its contract is the law.
ghost use Rattle.lvm_settled.specs.Settled.{CacheIsSeen, SettledIsGood, GoodIsSettled, NoneLeftIsBehind};
ghost use Rattle.lvm_settled.specs.Examples.{PairsSettle, PairsHaveNotesHome};

/// A session may begin: where it is settled and its disks hold what it says, no write is open in its history and the
/// earlier one, its usable copies are even and none is left behind, its state is good and matches the shelf.
pub fn settled_is_good()
    ensures { SettledIsGood }
{}

/// A session may be left: where its state is good and describes the disks, these keep the history, its usable
/// copies are even and none is left behind.
pub fn good_is_settled()
    ensures { GoodIsSettled }
{}

/// Where a settled session leaves no copy behind by what it wants, none is behind by what stands on the disks.
pub fn none_left_is_behind()
    ensures { NoneLeftIsBehind }
{}

/// Where the notes name what the session's cache does, its state knows just these.
pub fn cache_is_seen()
    ensures { CacheIsSeen }
{}

/// There are such sessions: of two disks that mirror a volume, in each mode, with both members or one that is lost,
/// after a power cut during a write, and after a write of their own; not while a write is open.
pub fn pairs_settle()
    ensures { PairsSettle }
{}

/// Their notes name what the cache does, in each mode, when they begin and after a write; not so where they were left
/// of an earlier session, or emptied behind the cache.
pub fn pairs_have_notes_home()
    ensures { PairsHaveNotesHome }
{}
