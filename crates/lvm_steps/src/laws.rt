//! Laws of the steps of commands. Each call does nothing: its contract is the law.
ghost use Rattle.lvm_steps.specs.Moments.{StepsGoOn, FewerStayKept, EntryGoesOn, GroupGoesOn, DisksGoOut, SpansJoin, SpanUpholds, RunsFollow, BlankIsEarlier};
ghost use Rattle.lvm_steps.specs.Entries.{DiskEntryKeeps, QuietEntryKeeps};
ghost use Rattle.lvm_steps.specs.Making.{NotesMayChange, StatusesMayChange, DescriptorsMayChange, StillMayMake, StillLeavesOnly, UnderWayLeavesOnly, TransferLeavesOnly, NotesGoOn, StatusGoesOn, DescriptorGoesOn, GroupIsMade};
ghost use Rattle.lvm_steps.specs.WorkedMaking.{WorkedMaking};
ghost use Rattle.lvm_steps.specs.Writable.{WritableStays, NotesAreOutside, RecordsAreOutside};
ghost use Rattle.lvm_steps.specs.VaryingOn.{RestampKeeps, OnlyNewestIsFound, RestateKeeps, ForgettingKeeps, RestampIsNewest, NewestStaysNewest, DescriptorVariesOn, StatusVariesOn, NotesVaryOn, GroupIsVariedOn};
ghost use Rattle.lvm_steps.specs.Committing.{CommitKeeps, CommitGoesOn};
ghost use Rattle.lvm_steps.specs.VolumeEntries.{VolumeBegins, VolumeIsMade, VolumeGoes, VolumeIsGone, ZerosServe};
ghost use Rattle.lvm_steps.specs.WorkedSession.{WorkedSession};
ghost use Rattle.lvm_steps.specs.Entering.{QuietGoesOn, CalmGoesOn, AnsweredStaysCalm, DarkenedStaysCalm, BeginsInSpan, MadeInSpan, GoesInSpan, GoneInSpan, CommitsInSpan};
ghost use Rattle.lvm_steps.specs.Requests.{StillShowsNone, BlankIsInNoGroup, StaysInNoGroup, WriteDoneKeeps, WriteLostKeeps, WriteDarkKeeps, WriteStuckKeeps, ReadGotKeeps, ReadFailedKeeps, ReadDarkKeeps, ReadStuckKeeps};

/// An entry that speaks of no volume keeps the history where the disks in no group hold what they then may; one that takes nothing
/// away keeps it in any case.
pub fn disk_entries_keep()
    ensures of_disks { DiskEntryKeeps }
    ensures quiet { QuietEntryKeeps }
{}

/// How spans of moments grow, by steps of the shelf and by entries, how one follows another, and what a run's span upholds.
pub fn spans_grow()
    ensures steps { StepsGoOn }
    ensures fewer { FewerStayKept }
    ensures entry { EntryGoesOn }
    ensures on { GroupGoesOn }
    ensures out { DisksGoOut }
    ensures joined { SpansJoin }
    ensures upheld { SpanUpholds }
{}

/// What a run leaves may stand before the next one, and before any run on disks of zeros nothing.
pub fn runs_follow()
    ensures next { RunsFollow }
    ensures blank { BlankIsEarlier }
{}

/// A disk that shows no descriptor on a still shelf, as one of zeros, is in no group, and stays so while data is written.
pub fn disks_stay_in_no_group()
    ensures still { StillShowsNone }
    ensures blank { BlankIsInNoGroup }
    ensures stays { StaysInNoGroup }
{}

/// A write of a disk that is in no group keeps the history legal and each crash image with it, at each moment from its
/// beginning until its answer is taken, whether it is done or lost, the power is cut, or nothing more is heard of it.
pub fn raw_writes_keep()
    ensures done { WriteDoneKeeps }
    ensures lost { WriteLostKeeps }
    ensures dark { WriteDarkKeeps }
    ensures stuck { WriteStuckKeeps }
{}

/// So it is of a read, whether it gets what stands there, fails, the power is cut, or nothing more is heard of it.
pub fn raw_reads_keep()
    ensures got { ReadGotKeeps }
    ensures failed { ReadFailedKeeps }
    ensures dark { ReadDarkKeeps }
    ensures stuck { ReadStuckKeeps }
{}

/// Where no disk shows a volume and none the new group, notes, a status and the group's descriptor may be written to any disks, and
/// whatever of them has landed keeps the history.
pub fn groups_may_be_made()
    ensures notes { NotesMayChange }
    ensures statuses { StatusesMayChange }
    ensures descriptors { DescriptorsMayChange }
    ensures still { StillMayMake }
{}

/// While `mkvg` writes notes, a status and a descriptor from a still shelf, what was kept is kept at each moment; and so it is of the
/// whole of it with its entries.
pub fn group_is_made()
    ensures notes { NotesGoOn }
    ensures status { StatusGoesOn }
    ensures descriptor { DescriptorGoesOn }
    ensures whole { GroupIsMade }
{}

/// Two groups in the making, worked by hand: on blank disks, and by force over one without volumes; and that a new group under an id
/// that is shown would not keep the history.
pub fn worked_making()
    ensures { WorkedMaking }
{}

/// A record that might be written to its targets still may after other sectors were, as those of notes or of the other kind's records.
pub fn records_stay_writable<X>()
    ensures stays { WritableStays X }
    ensures notes { NotesAreOutside }
    ensures records { RecordsAreOutside }
{}

/// While a group is varied on its descriptor may have a new stamp; once each member that answered has it, each quorum finds it, and
/// then its status may call more copies stale, and without active volumes its notes may be emptied.
pub fn groups_may_vary_on()
    ensures restamped { RestampKeeps }
    ensures only { OnlyNewestIsFound }
    ensures restated { RestateKeeps }
    ensures forgotten { ForgettingKeeps }
{}

/// What each write of a varyon finds after the one before, and that at each moment of the writes, and of the whole of it with its
/// entry, what was kept is kept.
pub fn group_is_varied_on()
    ensures restamped { RestampIsNewest }
    ensures stays { NewestStaysNewest }
    ensures descriptor { DescriptorVariesOn }
    ensures status { StatusVariesOn }
    ensures notes { NotesVaryOn }
    ensures whole { GroupIsVariedOn }
{}

/// A descriptor in which one volume more or less is named, which the history says is being made or removed, keeps the history,
/// whatever of it has landed.
pub fn descriptor_is_committed()
    ensures shown { CommitKeeps }
    ensures moments { CommitGoesOn }
{}

/// The entries of a volume keep the history: one may be in the making that no quorum finds, is made once each finds it, may be removed
/// at any time, and is gone once none finds it; and a new volume is served where its blocks are zeros.
pub fn volume_entries_keep()
    ensures begins { VolumeBegins }
    ensures made { VolumeIsMade }
    ensures goes { VolumeGoes }
    ensures gone { VolumeIsGone }
    ensures zeros { ZerosServe }
{}

/// A group of three in the midst of a varyon with a disk away, and of the making of its first volume, worked by hand.
pub fn worked_session()
    ensures { WorkedSession }
{}

/// Quiet entries as parts of spans; and after which entries no write of a disk is open that wasn't, as after all those of a request.
pub fn entries_go_on()
    ensures quiet { QuietGoesOn }
    ensures calm { CalmGoesOn }
    ensures answered { AnsweredStaysCalm }
    ensures darkened { DarkenedStaysCalm }
{}

/// The entries of a volume as parts of spans, and the commit between them.
pub fn volume_entries_go_on()
    ensures begins { BeginsInSpan }
    ensures made { MadeInSpan }
    ensures goes { GoesInSpan }
    ensures gone { GoneInSpan }
    ensures commits { CommitsInSpan }
{}

/// When nothing but one record, or notes, may have landed: on a still shelf, while only that is under way, and after a further transfer
/// of it.
pub fn writes_leave_only()
    ensures still { StillLeavesOnly }
    ensures under_way { UnderWayLeavesOnly }
    ensures transfer { TransferLeavesOnly }
{}
