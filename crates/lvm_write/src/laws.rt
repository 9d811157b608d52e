//! Laws over writes of records. Each call does nothing: its contract is the law.
ghost use Rattle.lvm_write.specs.Shows.{DescriptorMayBeWritten, StatusMayBeWritten, DescriptorsOldOrNew, StatusesOldOrNew, WrittenIsNewest};

/// Where the slot that comes next spares the newest record, a record under a stamp after all that stand
/// in the slots may be written.
pub fn records_may_be_written()
    ensures descriptors { DescriptorMayBeWritten }
    ensures statuses { StatusMayBeWritten }
{}

/// At each moment of such a write a loss of power leaves on each target the old newest record or the
/// new one, and all else as it was.
pub fn records_are_old_or_new()
    ensures descriptors { DescriptorsOldOrNew }
    ensures statuses { StatusesOldOrNew }
{}

/// After such a write the new record is the newest on each target that didn't fail.
pub fn written_is_newest<X>()
    ensures { WrittenIsNewest X }
{}
