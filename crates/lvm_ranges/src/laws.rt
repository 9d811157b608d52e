//! Laws: what turns leave of the requests of the table, and which ranges lack a source. Each call does nothing: its contract
//! is the law.
ghost use Rattle.lvm_ranges.specs.Choosing.{TurnChoosesSince};
ghost use Rattle.lvm_ranges.specs.Keeping.{TurnKeepsTable};
ghost use Rattle.lvm_ranges.specs.Worked.{SourcesAreJudged};

/// A turn keeps the requests of the table.
pub fn turns_keep_table()
    ensures { TurnKeepsTable }
{}

/// A turn chooses the targets of requests by no fewer faults than their disks had before it.
pub fn turns_choose_since()
    ensures { TurnChoosesSince }
{}

/// Of two sessions that are written out, in which a range of one block has landed for want of a source, the one that began
/// with no copy that could be used lacks one, and the one that began with both copies fresh doesn't.
pub fn sources_are_judged()
    ensures { SourcesAreJudged }
{}
