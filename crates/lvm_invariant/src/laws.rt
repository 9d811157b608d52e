//! Laws over a session. Each call does nothing: its contract is the law. For an event it is that the
//! event, made in a good state where its conditions hold, leads to a good state.
ghost use Rattle.lvm_invariant.specs.Submit.{SubmitKeeps};
ghost use Rattle.lvm_invariant.specs.EnterStep.{EnterStepKeeps};
ghost use Rattle.lvm_invariant.specs.Admit.{AdmitKeeps};
ghost use Rattle.lvm_invariant.specs.Pin.{PinKeeps};
ghost use Rattle.lvm_invariant.specs.Read.{ReadKeeps};
ghost use Rattle.lvm_invariant.specs.StartWrite.{StartWriteKeeps};
ghost use Rattle.lvm_invariant.specs.Transfer.{TransferKeeps};
ghost use Rattle.lvm_invariant.specs.LandDone.{LandDoneKeeps};
ghost use Rattle.lvm_invariant.specs.LandLost.{LandLostKeeps};
ghost use Rattle.lvm_invariant.specs.LandGot.{LandGotKeeps};
ghost use Rattle.lvm_invariant.specs.LandReadFailed.{LandReadFailedKeeps};
ghost use Rattle.lvm_invariant.specs.LandNoFresh.{LandNoFreshKeeps};
ghost use Rattle.lvm_invariant.specs.EndStep.{EndStepKeeps};
ghost use Rattle.lvm_invariant.specs.Take.{TakeKeeps};
ghost use Rattle.lvm_invariant.specs.TakeEarlier.{TakeEarlierKeeps};
ghost use Rattle.lvm_invariant.specs.Want.{WantKeeps};
ghost use Rattle.lvm_invariant.specs.BeginUpdate.{BeginUpdateKeeps};
ghost use Rattle.lvm_invariant.specs.MoveStatus.{MoveStatusKeeps};
ghost use Rattle.lvm_invariant.specs.Commit.{CommitKeeps};
ghost use Rattle.lvm_invariant.specs.EndUpdate.{EndUpdateKeeps};
ghost use Rattle.lvm_invariant.specs.StartNote.{StartNoteKeeps};
ghost use Rattle.lvm_invariant.specs.EndNote.{EndNoteKeeps};
ghost use Rattle.lvm_invariant.specs.Open.{OpenKeeps};
ghost use Rattle.lvm_invariant.specs.CopyWrite.{CopyWriteKeeps};
ghost use Rattle.lvm_invariant.specs.Clear.{ClearKeeps};
ghost use Rattle.lvm_invariant.specs.Events.{EachEventKeepsGood, EachMomentIsKept};
ghost use Rattle.lvm_invariant.specs.Cut.{CutKeeps};
ghost use Rattle.lvm_invariant.specs.Found.{QuorumFinds};
ghost use Rattle.lvm_invariant.specs.Off.{OffKeeps};
ghost use Rattle.lvm_invariant.specs.Over.{OverStays};
ghost use Rattle.lvm_invariant.specs.First.{FirstIsGood, BringingUpIsGood};
ghost use Rattle.lvm_invariant.specs.Wrong.{StartsUnrecorded, NoteLacksEntry, DoneUnsettled, ClearedUnpassed, CopyIsSkipped, CommittedEarly, EndedUncommitted, TwoVotes, LeftFresh, NoneFresh, NamesAreNeeded};
ghost use Rattle.lvm_invariant.specs.Worked.{EachModeWrites, RecordsGoOut, WriteEnds, ReadEnds, CopyIsBroughtUp, DisksAreLost, CutMeetsWrite, EarlierIsTaken};

/// A request begins.
pub fn request_begins()
    ensures { SubmitKeeps }
{}

/// A step of a copy enters the queue.
pub fn step_enters()
    ensures { EnterStepKeeps }
{}

/// A request is admitted, or a write chooses its targets again.
pub fn request_is_admitted()
    ensures { AdmitKeeps }
{}

/// A write pins the entry of its track group in the cache.
pub fn entry_is_pinned()
    ensures { PinKeeps }
{}

/// A transfer of a read starts or ends.
pub fn read_goes_on()
    ensures { ReadKeeps }
{}

/// The first transfer of a write starts.
pub fn write_starts()
    ensures { StartWriteKeeps }
{}

/// A further transfer of a write starts, or one ends, well or not.
pub fn write_goes_on()
    ensures { TransferKeeps }
{}

/// A write lands as Done.
pub fn write_is_done()
    ensures { LandDoneKeeps }
{}

/// A write lands as Lost.
pub fn write_is_lost()
    ensures { LandLostKeeps }
{}

/// A read lands as Got.
pub fn read_has_got()
    ensures { LandGotKeeps }
{}

/// A read lands as ReadFailed.
pub fn read_failed()
    ensures { LandReadFailedKeeps }
{}

/// A request that hasn't started lands as NoFresh.
pub fn no_copy_is_fresh()
    ensures { LandNoFreshKeeps }
{}

/// A step of a copy ends.
pub fn step_ends()
    ensures { EndStepKeeps }
{}

/// The answer of a request that has landed is taken, or a step that has ended leaves the queue; or the
/// answer of a request of an earlier session is taken while this one is on.
pub fn answer_is_taken()
    ensures own { TakeKeeps }
    ensures earlier { TakeEarlierKeeps }
{}

/// More staleness is wanted, disks become missing, the copy that is brought up ends.
pub fn staleness_is_wanted()
    ensures { WantKeeps }
{}

/// An update of the status begins.
pub fn update_begins()
    ensures { BeginUpdateKeeps }
{}

/// A write of the update in flight starts or ends.
pub fn status_moves()
    ensures { MoveStatusKeeps }
{}

/// The update in flight is committed, and the marks that this entails are made.
pub fn update_is_committed()
    ensures { CommitKeeps }
{}

/// An update that is committed ends. One with too few votes stays in flight for the rest of the session.
pub fn update_ends()
    ensures { EndUpdateKeeps }
{}

/// A write of a consistency record starts. It carries the whole cache.
pub fn note_starts()
    ensures { StartNoteKeeps }
{}

/// A write of a consistency record ends, well or with its disk missing.
pub fn note_ends()
    ensures { EndNoteKeeps }
{}

/// A stale copy begins to be brought up.
pub fn copy_opens()
    ensures { OpenKeeps }
{}

/// A write of a step's blocks to a copy starts or ends, and the copy passes track groups.
pub fn copy_is_written()
    ensures { CopyWriteKeeps }
{}

/// The copy that is brought up is whole, and is no longer wanted stale.
pub fn copy_is_cleared()
    ensures { ClearKeeps }
{}

/// Each event leads from a good state to a good state.
pub fn each_event_keeps_good()
    ensures { EachEventKeepsGood }
{}

/// A list of events leads from a good state to a good one. In it the history is legal, and each image
/// that a loss of power may leave agrees with the history, whichever of the statuses is found that a
/// quorum may find.
pub fn each_moment_is_kept()
    ensures { EachMomentIsKept }
{}

/// Whatever a loss of power leaves, each quorum finds the committed status or the one in flight.
pub fn quorum_finds()
    ensures { QuorumFinds }
{}

/// A session on a new volume is in a good state, in each mode, with a stale copy or without; and so it is while
/// that copy is being brought up, however far.
pub fn first_is_good()
    ensures rest { FirstIsGood }
    ensures brought_up { BringingUpIsGood }
{}

/// Worked sessions, from a session at rest on: each of their events may be made where it is made. In each mode a
/// write goes out to both copies, and a cut may meet it there; a status and a note go out; a read that failed on one copy is admitted again
/// and gets its block of the other, or fails; a stale copy is opened, a step of it ends, and once it has passed
/// all track groups it is cleared; where both disks are lost a write finds no usable copy, or the group goes off;
/// and the answer of a request of an earlier session is taken. In mode active the write ends: as Done after it
/// failed on one copy, as Lost after it failed on both. So for each event there is a good state that allows it.
pub fn sessions_are_met()
    ensures writes { EachModeWrites }
    ensures records { RecordsGoOut }
    ensures write_ends { WriteEnds }
    ensures reads { ReadEnds }
    ensures copies { CopyIsBroughtUp }
    ensures losses { DisksAreLost }
    ensures cut { CutMeetsWrite }
    ensures earlier { EarlierIsTaken }
{}

/// Wrong steps, each from a good state on. A loss of power may leave what the history doesn't allow where a write
/// of two targets starts that isn't recorded; where a note is out that lacks an entry of the cache; where a write lands
/// as Done that has failed on a copy which isn't stale yet; where a copy is cleared that hasn't passed all; and
/// where a write skips the copy that is being brought up. Disks with votes enough may find a status that isn't meant
/// any more, or not yet, where an update is committed with too few votes, or ends uncommitted.
pub fn conditions_are_needed()
    ensures unrecorded { StartsUnrecorded }
    ensures note { NoteLacksEntry }
    ensures unsettled { DoneUnsettled }
    ensures unpassed { ClearedUnpassed }
    ensures skipped { CopyIsSkipped }
    ensures early { CommittedEarly }
    ensures uncommitted { EndedUncommitted }
    ensures votes { TwoVotes }
{}

/// So it may where a copy on a lost disk stays fresh beside a usable one to which alone a write then goes; and where
/// a status leaves no copy fresh, what is acknowledged isn't to be found. Where copies differ after a cut, the
/// names in the notes are what allows it: a session that begins without them, or empties the notes before the
/// copies are equal, leaves what the history doesn't allow.
pub fn fresh_copies_and_names_are_needed()
    ensures left { LeftFresh }
    ensures none { NoneFresh }
    ensures names { NamesAreNeeded }
{}

/// Where the votes are lost and no flight is out, each open request lands as Off, with its data
/// started or not. The history is legal then, and what the disks may show agrees with it; and so it is
/// between any two of the landings.
pub fn group_goes_off()
    ensures { OffKeeps }
{}

/// Where the power is cut, whatever is out, each open request lands as Dark. The history is legal then,
/// and each image that the cut may leave agrees with it; and so it is right after the cut, and between
/// any two of the landings.
pub fn power_is_cut()
    ensures { CutKeeps }
{}

/// It stays so where answers are taken after that.
pub fn answers_after_the_end()
    ensures { OverStays }
{}
