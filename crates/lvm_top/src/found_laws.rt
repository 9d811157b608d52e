//! Laws of what quorums find. Each call does nothing: its contract is the law.
ghost use Rattle.lvm_top.specs.Laws.{LineFindsNoMore, ScriptFindsWhatStands, VaryonFindsWhatStands, RunMayStart, RunFindsWhatStands};
ghost use Rattle.lvm_top.specs.OneGroup.{UnforcedStaysAlone, UnforcedRunsAlone, BlankFindsOneGroup};

/// After a line no descriptor may be found that might not be before, but the one that the line was to commit.
pub fn lines_find_no_more()
    ensures { LineFindsNoMore }
{}

/// After the lines of a script, and at the end of a run, what may be found of a group is what the last acknowledged command on it has
/// committed, or what was being committed since, and so is what a `varyonvg` then finds.
pub fn scripts_find_what_stands()
    ensures stands { ScriptFindsWhatStands }
    ensures varyon { VaryonFindsWhatStands }
    ensures start { RunMayStart }
    ensures run { RunFindsWhatStands }
{}

/// Lines without a `mkvg -f`, over disks on which at most one group is found as over such of zeros, make and remove volumes of the only
/// group.
pub fn unforced_scripts_stay_alone()
    ensures lines { UnforcedStaysAlone }
    ensures run { UnforcedRunsAlone }
    ensures blank { BlankFindsOneGroup }
{}
