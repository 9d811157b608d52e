//! Laws of the commits of a session. Each call does nothing: its contract is the law.
ghost use Rattle.lvm_commit.specs.Laws.{OnlyCommittedIsFound, CommittedStatusIsRead, ShownIsOnly, StatusFollows, StatusGoesOn, StatusIsCommitted, DescriptorIsCommitted};
ghost use Rattle.lvm_commit.specs.LawsOfData.{FreeDataKeeps, FreeDataGoesOn, DataKeepsCommitted, StillHoldsCommitted, TransferHoldsCommitted};
ghost use Rattle.lvm_commit.specs.LawsOfVolumes.{NextIsLater, OneServes, CommittedMayCommit, ZerosAreFound, DescriptorLeavesOthers, RestLeavesOthers, OnlyGroupStays, OnlyGroupStaysByData, OnlyGroupStaysOn, OneFoundIsOnlySince, NamedIsFound, UnnamedIsNotFound, VolumeBeginsInSession, VolumeSplitsInSession, VolumeIsMadeInSession, VolumeIsGoneInSession};
ghost use Rattle.lvm_commit.specs.LawsOfFinding.{DescriptorFindsNoMore, RestFindsNothingNew, StatusWriteFindsNothingNew, DescriptorWriteFindsNoMore, TransferFindsNothingNew};
ghost use Rattle.lvm_commit.specs.LawsOfWrites.{StatusMayGo, DescriptorMayGo, StatusWriteKeeps, DescriptorWriteKeeps, StatusIsHeld, DescriptorIsHeld, StatusWriteLeavesOthers, DescriptorWriteLeavesOthers};

/// Where the members that aren't missing have votes enough to write, each quorum finds the committed descriptor and reads the committed status.
pub fn committed_is_found()
    ensures descriptor { OnlyCommittedIsFound }
    ensures status { CommittedStatusIsRead }
{}

/// Of a group of which all disks show one descriptor nothing else is found.
pub fn session_begins()
    ensures { ShownIsOnly }
{}

/// The next status keeps the history, at each moment while it is written, and is committed once it is.
pub fn status_follows()
    ensures keeps { StatusFollows }
    ensures moments { StatusGoesOn }
    ensures committed { StatusIsCommitted }
{}

/// The next descriptor is committed once it is written.
pub fn descriptor_is_committed()
    ensures { DescriptorIsCommitted }
{}

/// All that the disks show is earlier than the next stamps of the session.
pub fn next_is_later()
    ensures { NextIsLater }
{}

/// The descriptor that names a new volume, or one no more, may be committed where the history says that the volume is being made or removed; and so may one in which several differ.
pub fn volume_may_be_committed()
    ensures one { OneServes }
    ensures descriptor { CommittedMayCommit }
    ensures zeros { ZerosAreFound }
{}

/// Nothing that a session writes makes another group found, so the only group stays the only one. It is the only one where what is found is of one group.
pub fn only_group_stays()
    ensures descriptor { DescriptorLeavesOthers }
    ensures rest { RestLeavesOthers }
    ensures only { OnlyGroupStays }
    ensures blocks { OnlyGroupStaysByData }
    ensures on { OnlyGroupStaysOn }
    ensures since { OneFoundIsOnlySince }
{}

/// Where no other group is found, a volume is found by all as soon as the committed descriptor names it, and by none where it doesn't.
pub fn volume_is_found()
    ensures all { NamedIsFound }
    ensures none { UnnamedIsNotFound }
{}

/// So are the entries of a volume parts of spans: it may be in the making, is made once it is named, and is gone once it isn't any more.
pub fn entries_of_volumes_go_on()
    ensures begins { VolumeBeginsInSession }
    ensures splits { VolumeSplitsInSession }
    ensures made { VolumeIsMadeInSession }
    ensures gone { VolumeIsGoneInSession }
{}

/// A record of the session may be written under a stamp that comes next. Whatever of it has landed keeps the history and leaves other groups as they were, and once it stands the disks hold it.
pub fn writes_are_held()
    ensures may_state { StatusMayGo }
    ensures may_describe { DescriptorMayGo }
    ensures stating { StatusWriteKeeps }
    ensures describing { DescriptorWriteKeeps }
    ensures states { StatusIsHeld }
    ensures describes { DescriptorIsHeld }
    ensures stated { StatusWriteLeavesOthers }
    ensures described { DescriptorWriteLeavesOthers }
{}

/// Whatever a session writes and however much of it has landed, nothing is found that wasn't found before, but the descriptor that it writes.
pub fn nothing_else_is_found()
    ensures descriptor { DescriptorFindsNoMore }
    ensures rest { RestFindsNothingNew }
    ensures states { StatusWriteFindsNothingNew }
    ensures describes { DescriptorWriteFindsNoMore }
    ensures transfer { TransferFindsNothingNew }
{}

/// Data in a free partition keeps the history, at each moment while it is written, and leaves what is committed.
pub fn data_keeps_committed()
    ensures keeps { FreeDataKeeps }
    ensures moments { FreeDataGoesOn }
    ensures shows { DataKeepsCommitted }
    ensures left { StillHoldsCommitted }
    ensures transfer { TransferHoldsCommitted }
{}
