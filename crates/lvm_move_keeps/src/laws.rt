//! Laws. Each call does nothing: its contract is the law.
ghost use Rattle.lvm_move_keeps.specs.Drained.{DoneIsJudged, DoneMayCommit, DrainedIsDone};
ghost use Rattle.lvm_move_keeps.specs.Keeping.{MoveKeepsSound};
ghost use Rattle.lvm_move_keeps.specs.Moved.{MoveHasMoved, MovedHasMoved};
ghost use Rattle.lvm_move_keeps.specs.Stuck.{StuckMoveIsSound, StuckSessionsMayWait};
ghost use Rattle.lvm_move_keeps.specs.Waiting.{WaitingStays};
ghost use Rattle.lvm_move_keeps.specs.Worked.{MovesMayBeCommitted};

/// A request that has landed, or isn't admitted yet, stands in any session whose descriptor has its range.
pub fn waiting_stays()
    ensures { WaitingStays }
{}

/// Where turns find nothing to do beside a move that is done, nothing is left to be made, and its descriptor may be committed.
pub fn drained_moves_may_be_committed()
    ensures done { DrainedIsDone }
    ensures may { DoneMayCommit }
{}

/// A move tells that it is done only where it is: all of it is copied, its destination is fresh, and nothing is under way on its
/// logical partition.
pub fn done_is_judged()
    ensures { DoneIsJudged }
{}

/// Where a transfer of the commit of a move isn't heard of, the session is sound once its copy is closed and it is stuck.
pub fn stuck_move_is_sound()
    ensures { StuckMoveIsSound }
{}

/// A stuck session that is written out, in which a write waits for admission, is sound.
pub fn stuck_sessions_may_wait()
    ensures { StuckSessionsMayWait }
{}

/// However the commit of a move ends the session stays sound, but where a transfer isn't heard of.
pub fn move_keeps_sound()
    ensures { MoveKeepsSound }
{}

/// The descriptor in which a copy stands on another partition is one to which it has moved; so it is of the destination of
/// a move.
pub fn moved_has_moved()
    ensures any { MovedHasMoved }
    ensures destination { MoveHasMoved }
{}

/// A session that is written out may have its move committed.
pub fn moves_may_be_committed()
    ensures { MovesMayBeCommitted }
{}
