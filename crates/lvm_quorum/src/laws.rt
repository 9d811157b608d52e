//! Laws over what disks show. Each call does nothing: its contract is the law.
ghost use Rattle.lvm_quorum.specs.Laws.{DescriptorsAreValid, StatusesAreValid};

/// The records that a disk of whole sectors shows are valid.
pub fn shown_records_are_valid()
    ensures descriptors { DescriptorsAreValid }
    ensures statuses { StatusesAreValid }
{}
