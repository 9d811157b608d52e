//! Laws of causes. Each call does nothing: its contract is the law.
ghost use Rattle.lvm_invariant.specs.WorkedCauses.{LossIsCaused, FailedReadIsCaused, FaultsAreNeeded};
ghost use Rattle.lvm_invariant.specs.CauseLaws.{EachEventKeepsCauses, EachMomentIsCaused, FirstIsUnasked, VotesAreLostByFaults, OffIsCaused, CutIsCaused};

/// Each event of a session, where whatever fails in it is a fault of that disk, keeps this: nothing is missing,
/// stale or failed but from the beginning, or by a fault since.
pub fn each_event_keeps_causes()
    ensures { EachEventKeepsCauses }
{}

/// So it is at each moment of a session that begins with nothing asked, as one does.
pub fn each_moment_is_caused()
    ensures moments { EachMomentIsCaused }
    ensures first { FirstIsUnasked }
{}

/// Members with votes enough lose them, and a group goes off, only where a disk has failed since.
pub fn going_off_is_caused()
    ensures votes { VotesAreLostByFaults }
    ensures landings { OffIsCaused }
{}

/// A cut of the power needs no fault, and after it the history has its causes still: the landings are as Dark.
pub fn cut_is_caused()
    ensures { CutIsCaused }
{}

/// Worked sessions whose events have their causes: writes of records fail on both disks, and a write finds no usable
/// copy; the disk of the one fresh copy fails, and a read with it. Where no count rose, no disk may
/// become missing, nor a copy wanted stale.
pub fn causes_are_met()
    ensures loss { LossIsCaused }
    ensures read { FailedReadIsCaused }
    ensures needed { FaultsAreNeeded }
{}
