//! Laws of moved copies. Each call does nothing: its contract is the law.
ghost use Rattle.lvm_moved.specs.Laws.{MovedIsValid};

/// A valid group stays valid where a copy stands on a partition that no volume has, inside its member, on a disk that
/// has no other copy of its logical partition.
pub fn moved_is_valid()
    ensures { MovedIsValid }
{}
