//! Laws of the stamps that stand on disks. Each call does nothing: its contract is the law.
ghost use Rattle.lvm_steps.specs.Laws.{LaterIsAfterToo, LaterIsAheadToo, SessionIsFromMoment, SessionIsBeforeLater, BehindIsBefore, BeforeIsBehind, DataKeepsBefore, NotesAndDataAreOutside, EarlierKeepBefore, RecordKeepsBefore, RecordIsBeforeNext, CrashKeepsBefore, StillKeepsBefore, UnderWayKeepsBefore, LeftIsBefore, UnwrittenStaysBefore, NoMoreStaysBefore, DataStaysBefore, TransferStaysBefore, EarlierStandsBefore, UntouchedStaysBehind, EarlierStaysBehind, BlankIsBefore, BlankIsBehind, AllIsBehindEnd, ShownIsBefore, LaterMayGo, SessionMayGo, LaterStaysAhead, RisenIsAhead, AllIsBehindNext, LaterIsLaterToo, LaterJoins, OnIsEarlier, RemovedStaysLater, JoinedIsLater};

/// What stands before a stamp, or is from before a moment, is so before each later one; the stamps of a
/// session are those from its moment on.
pub fn later_is_after_too()
    ensures stamps { LaterIsAfterToo }
    ensures moments { LaterIsAheadToo }
    ensures session { SessionIsFromMoment }
    ensures earlier { SessionIsBeforeLater }
    ensures before { BehindIsBefore }
    ensures behind { BeforeIsBehind }
{}

/// Writes of data, of notes and of records under earlier stamps leave all stamps before a later one,
/// whatever of them has landed.
pub fn writes_keep_before()
    ensures blocks { DataKeepsBefore }
    ensures outside { NotesAndDataAreOutside }
    ensures earlier { EarlierKeepBefore }
    ensures one { RecordKeepsBefore }
    ensures next { RecordIsBeforeNext }
{}

/// So does a loss of power, while nothing is out, or such writes alone are.
pub fn crashes_keep_before()
    ensures flights { CrashKeepsBefore }
    ensures still { StillKeepsBefore }
    ensures under_way { UnderWayKeepsBefore }
    ensures left { LeftIsBefore }
{}

/// What stands on a shelf stays before a stamp, or a moment, while nothing is written, data alone is, or
/// records under earlier stamps are.
pub fn shelves_stay_behind()
    ensures unwritten { UnwrittenStaysBefore }
    ensures no_more { NoMoreStaysBefore }
    ensures blocks { DataStaysBefore }
    ensures transfer { TransferStaysBefore }
    ensures stamps { EarlierStandsBefore }
    ensures untouched { UntouchedStaysBehind }
    ensures moments { EarlierStaysBehind }
{}

/// Disks of zeros are from before each moment, and all disks from before the end of the moments.
pub fn blank_is_behind()
    ensures stamps { BlankIsBefore }
    ensures moments { BlankIsBehind }
    ensures end { AllIsBehindEnd }
{}

/// Where all stamps on the disks are before one, the records that they show are, and one under that stamp or
/// a later one may be written.
pub fn later_may_go()
    ensures shown { ShownIsBefore }
    ensures go { LaterMayGo }
    ensures session { SessionMayGo }
{}

/// A clock that rises stays ahead of what stands on the disks and in the history.
pub fn clock_stays_ahead()
    ensures later { LaterStaysAhead }
    ensures risen { RisenIsAhead }
    ensures next { AllIsBehindNext }
{}

/// A moment that is later than those of a history stays so when it rises, and when entries follow that name
/// none, or an earlier one.
pub fn later_is_later_too()
    ensures moments { LaterIsLaterToo }
    ensures joined { LaterJoins }
    ensures on { OnIsEarlier }
    ensures removed { RemovedStaysLater }
    ensures runs { JoinedIsLater }
{}
