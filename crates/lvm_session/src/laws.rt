//! Laws: what the definitions say of sessions that are written out.
ghost use Rattle.lvm_session.specs.Busy.{BusyIsSound};
ghost use Rattle.lvm_session.specs.Worked.{AdmissionMarks, CommitLowersWork, UnsettledIsFresh, ReadsMayLag, StandingStillIsUnsound, BlameNeedsFaults, AnswersAreTold, DarknessKeepsNotes, BeginningsAreSound, HeldWritesAreSound, FlyingWritesAreSound, CopiesAreSound, WaitingWritesPin, UnpinnedWritesMove};
ghost use Rattle.lvm_session.specs.WorkedMoves.{MovesAreSound, WritesGoAlong};

/// A write to several copies of a passive volume wants the volume dirty when it is admitted.
pub fn admission_marks()
    ensures { AdmissionMarks }
{}

/// The commit of an update that calls a copy fresh which ended since leaves less work, though the copy is usable
/// by it until the next update.
pub fn commit_lowers_work()
    ensures { CommitLowersWork }
{}

/// A copy that the update in flight calls fresh isn't opened.
pub fn unsettled_is_fresh()
    ensures { UnsettledIsFresh }
{}

/// The copy that is being brought up may pass blocks whose read of it has failed.
pub fn reads_may_lag()
    ensures { ReadsMayLag }
{}

/// Sessions in which nothing could ever be done about what waits aren't sound.
pub fn standing_still_is_unsound()
    ensures { StandingStillIsUnsound }
{}

/// Without a fault nothing is held against a copy or a disk.
pub fn blame_needs_faults()
    ensures { BlameNeedsFaults }
{}

/// What a request is answered is what the history tells.
pub fn answers_are_told()
    ensures { AnswersAreTold }
{}

/// A power cut leaves the notes of exactly the members.
pub fn darkness_keeps_notes()
    ensures { DarknessKeepsNotes }
{}

/// A session as it begins is sound, in whatever mode its volume is.
pub fn beginnings_are_sound()
    ensures { BeginningsAreSound }
{}

/// A session with a write that is held is sound, in whatever mode its volume is.
pub fn held_writes_are_sound()
    ensures { HeldWritesAreSound }
{}

/// A session with a write of both copies of an active volume, of which the first transfer is out, is sound.
pub fn flying_writes_are_sound()
    ensures { FlyingWritesAreSound }
{}

/// A session whose copy is being brought up is sound, in whatever mode its volume is.
pub fn copies_are_sound()
    ensures { CopiesAreSound }
{}

/// A session in which a copy moves is sound, in whatever mode its volume is: while the move is open, once all is
/// copied, and once it has ended.
pub fn moves_are_sound()
    ensures { MovesAreSound }
{}

/// A session with a write that is done on both copies and out to the destination of a move is sound. One whose
/// write leaves that destination out, though the move has passed its track group, isn't.
pub fn writes_go_along()
    ensures { WritesGoAlong }
{}

/// A session with a write that waits for its entry in the cache is sound, and its track group is pinned next.
pub fn waiting_writes_pin()
    ensures { WaitingWritesPin }
{}

/// A session with each of its parts in use is sound: a write that is done on one copy and out to the other, a read
/// that has got its blocks, a copy that is being brought up, and an update of the status in flight.
pub fn busy_is_sound()
    ensures { BusyIsSound }
{}

/// A write under way is sound also where its volume is passive or keeps no records.
pub fn unpinned_writes_move()
    ensures { UnpinnedWritesMove }
{}
