//! Laws over what a group is and over what its records say. Each call does nothing: its contract is the law.
ghost use Rattle.std.specs.Prelude.{◌≡◌, Ok, Err, Some, true, false, take, ◌++◌, ◌∷◌, []};
ghost use Rattle.lvm_num.specs.declared.record.Kind.TheVariants.{Descriptor as descriptor_kind};
ghost use Rattle.lvm_num.specs.Geometry.{partition_count, sector_of};
ghost use Rattle.lvm_num.specs.Votes.{total_votes, ReadMeetsWrite, ReadMeetsRead, WriteMeetsWrite, ReadIsWrite, MoreHaveMore, MoreIsEnough};
ghost use Rattle.lvm_num.specs.DescriptorBytes.{descriptor_bytes, descriptor_of};
ghost use Rattle.lvm_num.specs.StatusBytes.{status_bytes, status_of};
ghost use Rattle.lvm_num.specs.Record.{record_bytes, record_in, NewestIsOne, NewestIsLast, HeldIsRead, ReadIsHeld};
ghost use Rattle.lvm_num.specs.Note.{note_bytes, note_in, WrittenIsRead};
ghost use Rattle.lvm_num.specs.Torn.{FreshIsNeeded, TornIsOldOrNoneOrNew, WholeIsRead, BeforeIsFresh, BeforeIsOlder, BeforeIsKept};
ghost use Rattle.lvm_record_laws.specs.Worked.{worked, worked_bytes, with_bad_flag, worked_framed, worked_frame, worked_note, worked_note_bytes, with_partitions, with_members, with_volume, not_strict, used_twice, worked_status};

/// A set of members that suffices to bring the group on has a member of each set that suffices for
/// a record to count as written: so what was committed is found, with quorum checking on or off.
pub fn quorums_meet()
    ensures read_meets_write { ReadMeetsWrite }
    ensures read_meets_read { ReadMeetsRead }
    ensures write_meets_write { WriteMeetsWrite }
    ensures read_is_write { ReadIsWrite }
{}

/// More disks have no fewer votes, and more votes suffice where fewer do.
pub fn more_votes_suffice()
    ensures have { MoreHaveMore }
    ensures enough { MoreIsEnough }
{}

/// The newest record is one of those there, and none is newer.
pub fn newest<X>()
    ensures one { NewestIsOne X }
    ensures last { NewestIsLast X }
{}

/// A slot is read as the record that it holds, and as nothing else.
pub fn records_are_exact()
    ensures read { HeldIsRead }
    ensures held { ReadIsHeld }
{}

/// A note that was written is read.
pub fn notes_are_exact()
    ensures { WrittenIsRead }
{}

/// A write of a record of which any part has landed leaves its slot's old record, none, or the new one,
/// which is read exactly where all of it is there.
pub fn torn_writes()
    ensures torn { TornIsOldOrNoneOrNew }
    ensures whole { WholeIsRead }
{}

/// A stamp after all that stand in a slot is new there, its record is older, and a torn write under an
/// earlier stamp leaves it so. Under a stamp that a stale sector has, a torn write may leave a third record.
pub fn new_stamps()
    ensures fresh { BeforeIsFresh }
    ensures older { BeforeIsOlder }
    ensures kept { BeforeIsKept }
    ensures needed { FreshIsNeeded }
{}

/// Partitions, sectors and votes of small groups.
pub fn worked_numbers()
    ensures partitions { partition_count 16384 1 ≡ 6 }
    ensures most_partitions { partition_count 2097152 1 ≡ 1016 }
    ensures no_partition { partition_count 4095 1 ≡ 0 }
    ensures sector { sector_of 1 3 2049 ≡ 10241 }
    ensures one { total_votes (with_members (with_partitions 0 ∷ []) false) ≡ 2 }
    ensures two { total_votes (with_members (with_partitions 0 ∷ with_partitions 1 ∷ []) false) ≡ 3 }
    ensures two_even { total_votes (with_members (with_partitions 0 ∷ with_partitions 1 ∷ []) true) ≡ 2 }
    ensures three { total_votes (with_members (with_partitions 0 ∷ with_partitions 1 ∷ with_partitions 2 ∷ []) false) ≡ 3 }
{}

/// The bytes of a descriptor of three disks, which are read again; and the place of the first fault where
/// its quorum is 2, its last byte is lacking, or a byte follows.
pub fn worked_descriptor()
    ensures spelled { descriptor_bytes worked ≡ worked_bytes }
    ensures read { descriptor_of worked_bytes ≡ Ok worked }
    ensures flag { descriptor_of with_bad_flag ≡ Err 30 }
    ensures short { descriptor_of (take 71 worked_bytes) ≡ Err 71 }
    ensures long { descriptor_of (worked_bytes ++ 0 ∷ []) ≡ Err 72 }
{}

/// A big descriptor with a volume is read again. A copy on the disk of another is found at its disk, a
/// partition that is used twice at its number, and even votes of three members at their flag.
pub fn worked_volume()
    ensures read { descriptor_of (descriptor_bytes with_volume) ≡ Ok with_volume }
    ensures strict { descriptor_of (descriptor_bytes not_strict) ≡ Err 100 }
    ensures twice { descriptor_of (descriptor_bytes used_twice) ≡ Err 106 }
    ensures even { descriptor_of (descriptor_bytes (with_members (with_partitions 0 ∷ with_partitions 1 ∷ with_partitions 2 ∷ []) true)) ≡ Err 31 }
{}

/// A status of each version is read again, and a byte less is found.
pub fn worked_status_versions()
    ensures first { status_of (status_bytes (worked_status [] false)) ≡ Ok (worked_status [] false) }
    ensures second { status_of (status_bytes (worked_status [] true)) ≡ Ok (worked_status [] true) }
    ensures third { status_of (status_bytes (worked_status (3 ∷ 9 ∷ []) true)) ≡ Ok (worked_status (3 ∷ 9 ∷ []) true) }
    ensures short { status_of (take 279 (status_bytes (worked_status [] false))) ≡ Err 279 }
{}

/// The sector of a record and that of a note, which are read again.
pub fn worked_sectors()
    ensures record_spelled { record_bytes descriptor_kind worked_framed ≡ worked_frame }
    ensures record_read { record_in descriptor_kind worked_frame ≡ Some worked_framed }
    ensures note_spelled { note_bytes worked_note ≡ worked_note_bytes }
    ensures note_read { note_in worked_note_bytes ≡ Some worked_note }
{}
