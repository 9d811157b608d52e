//! Laws over calls of a cache one after the other. Each call does nothing: its contract is the law.
ghost use Rattle.lvm_mwc.specs.Laws.{NewIsEmpty, EntriesDiffer, PinsAreCounted, PinnedStays, NamedStays, SectorsAreKnown, NamedStands, NamedFlies, EndedStands, FailedLeaves};

/// No track group stands twice in a cache, through any calls.
pub fn entries_differ()
    ensures new { NewIsEmpty }
    ensures differ { EntriesDiffer }
{}

/// A track group keeps its pins until they are taken, and isn't put out before.
pub fn pinned_entries_stay()
    ensures counted { PinsAreCounted }
    ensures stays { PinnedStays }
{}

/// A track group that is named on a disk stays named there while it has a pin, whatever notes are
/// started and end there, well or not.
pub fn named_groups_stay()
    ensures { NamedStays }
{}

/// A track group is named on a disk exactly where each sector that may stand there has it: the note that
/// was written last, each that failed since, and the one in flight.
pub fn sectors_are_known()
    ensures { SectorsAreKnown }
{}

/// The same call by call: what is named on a disk is in each sector that may stand there and in the note in
/// flight; when that note ends it may stand there, and after a fault the one before it may too.
pub fn sectors_step_by_step()
    ensures named { NamedStands }
    ensures flight { NamedFlies }
    ensures ended { EndedStands }
    ensures failed { FailedLeaves }
{}
