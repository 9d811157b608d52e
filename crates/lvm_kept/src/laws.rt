//! Laws of what disks show, and of the changes that keep a history.
ghost use Rattle.lvm_kept.specs.Places.{DataWritesKeepRecords, RecordWritesKeepData, BlocksAreSectors};
ghost use Rattle.lvm_kept.specs.Torn.{NewestStays, WritingBegins, StepKeepsWriting, AloneIsAmongOthers, NewestIsOldOrNew, WholeIsNew, DescriptorWriteShows, StatusWriteShows, EndedPartStands, StandingPartStays, NoteWriteShows, EarlierStaysBefore, ZerosAreBefore};
ghost use Rattle.lvm_kept.specs.Group.{FindingReads};
ghost use Rattle.lvm_kept.specs.Committed.{ImagesAreWithin, QuorumMeetsWriters, QuorumsMeet, QuorumFindsStatus, QuorumFindsDescriptor, NextIsWritten, NextIsCommitted, OneFoundIsOnly, OneShownIsOne};
ghost use Rattle.lvm_kept.specs.Examples.{FreshThree, SecondAway, StaleCopy, NamedDifference, HalfMade};
ghost use Rattle.lvm_kept.specs.Changes.{BlankIsKept, DataChangeKeeps, NoteChangeKeeps, StatusChangeKeeps, RestampingKeeps, EntryKeeps, MoreIsKept, BeginningAllowsMore, BeginningStands};

/// A change of data sectors changes no record of a disk and so nothing that a group shows; a change
/// of record sectors changes no data; and a block of a volume on a copy is one sector of the data.
pub fn places()
    ensures records { DataWritesKeepRecords }
    ensures rest { RecordWritesKeepData }
    ensures sectors { BlocksAreSectors }
{}

/// While a record or a note is being written, whatever becomes of each transfer, every crash image is the old
/// one but for what is being written: from the beginning on, at each step of the shelf.
pub fn writing()
    ensures begins { WritingBegins }
    ensures step { StepKeepsWriting }
    ensures among { AloneIsAmongOthers }
{}

/// A write of a record into the slot that doesn't hold the newest leaves each disk its newest record, or makes
/// the new one newest, which it is exactly where all of it stands.
pub fn record_writes<X>()
    ensures newest { NewestIsOldOrNew X }
    ensures stays { NewestStays X }
    ensures whole { WholeIsNew X }
{}

/// What the disks show while a descriptor, a status or a note is being written: the old one or the new one
/// on each target, and all else as it was.
pub fn writes_show()
    ensures descriptors { DescriptorWriteShows }
    ensures statuses { StatusWriteShows }
    ensures notes { NoteWriteShows }
{}

/// A part of a record that was brought well stands in each crash image, and goes on standing.
pub fn parts_stand()
    ensures ended { EndedPartStands }
    ensures stays { StandingPartStays }
{}

/// Stamps rise: a write under an earlier stamp leaves all stamps of the slots before a later one, and on zeros
/// any stamp is later.
pub fn stamps_rise()
    ensures earlier { EarlierStaysBefore }
    ensures zeros { ZerosAreBefore }
{}

/// Each quorum meets the members that hold the committed record: it finds the committed status or descriptor,
/// or the one that is being written; and two quorums share a voter.
pub fn quorums_find()
    ensures reads { FindingReads }
    ensures within { ImagesAreWithin }
    ensures writers { QuorumMeetsWriters }
    ensures voters { QuorumsMeet }
    ensures status { QuorumFindsStatus }
    ensures descriptor { QuorumFindsDescriptor }
{}

/// Where whatever sets of disks find is of one group, no set of disks finds another one, as where all that is shown is of one.
pub fn one_group_is_only()
    ensures only { OneFoundIsOnly }
    ensures one { OneShownIsOne }
{}

/// A later record that is being written stands beside the committed one, and alone on the disks that have it.
pub fn records_are_committed<X>()
    ensures written { NextIsWritten X }
    ensures committed { NextIsCommitted X }
{}

/// What the definitions say of small groups, worked by hand: a fresh group of three, a group of two with a disk
/// away, a stale copy, two copies that differ in a named track group, and a volume half made.
pub fn worked_groups()
    ensures three { FreshThree }
    ensures away { SecondAway }
    ensures stale { StaleCopy }
    ensures named { NamedDifference }
    ensures half_made { HalfMade }
{}

/// Disks of zeros keep the empty history.
pub fn blank_is_kept()
    ensures { BlankIsKept }
{}

/// Which changes of what the disks show keep the history: of data, of notes, of statuses,
/// and of descriptors that get a new stamp.
pub fn changes_keep()
    ensures blocks { DataChangeKeeps }
    ensures notes { NoteChangeKeeps }
    ensures statuses { StatusChangeKeeps }
    ensures descriptors { RestampingKeeps }
{}

/// An entry keeps the history where the blocks stay kept, as with one after which no block may have less, and each
/// volume stands as it may. The beginning of a request is such an entry, on a disk, on a settled volume, and on one
/// that a power cut left open and each quorum finds.
pub fn entries_keep()
    ensures entry { EntryKeeps }
    ensures more { MoreIsKept }
    ensures beginning { BeginningAllowsMore }
    ensures stands { BeginningStands }
{}
