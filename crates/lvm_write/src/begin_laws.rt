//! Laws of the writes with which a group comes on. Each call does nothing: its contract is the law.
ghost use Rattle.lvm_write.specs.Newest.{AllFindNewest, NewIsFound, AgainIsFound, StatusIsLast};
ghost use Rattle.lvm_write.specs.Shown.{NewIsShown, AgainIsShown, TargetsSpareNewest, OthersSpareNewest, RangesAreOfRecords, StampsAreOfBeginning};

/// Once all parts of a beginning stand, each target shows its records, and all else is as it was.
pub fn beginning_is_shown()
    ensures new { NewIsShown }
    ensures again { AgainIsShown }
{}

/// Then the disks find the descriptor and the status of the beginning, and no disk shows a later one.
pub fn beginning_is_found()
    ensures new { NewIsFound }
    ensures again { AgainIsFound }
    ensures all { AllFindNewest }
    ensures last { StatusIsLast }
{}

/// The slots that come next spare the newest records again.
pub fn homes_spare_newest()
    ensures targets { TargetsSpareNewest }
    ensures others { OthersSpareNewest }
{}

/// Whatever became of the writes, the ranges that were written are of records of the targets, and no stamp on the disks
/// is later than theirs.
pub fn writes_are_of_records()
    ensures ranges { RangesAreOfRecords }
    ensures stamps { StampsAreOfBeginning }
{}
