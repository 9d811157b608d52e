//! Laws of runs. Each call does nothing: its contract is the law.
ghost use Rattle.lvm_top.specs.Laws.{RunsEndInTime, VaryonsRecover};
ghost use Rattle.lvm_top.specs.Refused.{ScriptsAreComplete};
ghost use Rattle.lvm_top.specs.Left.{LeftIsEarlier, NextAfterCut, LeftIsBehind};
ghost use Rattle.lvm_top.specs.Plain.{BlankHoldsOneGroup};
ghost use Rattle.lvm_top.specs.Runs.{NextMayBegin, TwoRunsUphold, LeftFindsNoMore, PlainRunsFollow};

/// With whatever a loss of power leaves of what a run has left another one may begin at a later moment; so two runs, the first over disks
/// of zeros and the second over such a remainder, uphold their histories together. The remainder holds one group at most where the run
/// left no more. So it does where the script has nowhere `-f` and the disks held one group at most before it.
pub fn runs_follow()
    ensures next { NextMayBegin }
    ensures two { TwoRunsUphold }
    ensures finds { LeftFindsNoMore }
    ensures plain { PlainRunsFollow }
{}

/// What a loss of power leaves of a shelf may stand before a run where the shelf itself may, so behind a run that was upheld, and has no
/// later stamps.
pub fn left_is_earlier()
    ensures left { LeftIsEarlier }
    ensures next { NextAfterCut }
    ensures behind { LeftIsBehind }
{}

/// Disks of zeros hold one group at most, with nothing told before.
pub fn blank_holds_one_group()
    ensures { BlankHoldsOneGroup }
{}

/// Each `varyonvg` of a script that is answered `ok` leaves the group recovered, whatever the modes of its volumes. One that
/// lacks its quorum has written nothing.
pub fn varyons_recover()
    ensures { VaryonsRecover }
{}

/// A line of a script in which no transfer failed, the power wasn't cut and the shelf didn't wait a million times is refused, if it
/// is, by a rule of its own, for want of memory, or since the votes were lost before it.
pub fn scripts_are_complete()
    ensures { ScriptsAreComplete }
{}

/// A run whose source and sink don't fail, and whose shelf doesn't wait a million times in one line, ends with status 0, 1, 5 or 7.
pub fn runs_end_in_time()
    ensures { RunsEndInTime }
{}
