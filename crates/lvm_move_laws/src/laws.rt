//! Laws. Each call does nothing: its contract is the law.
ghost use Rattle.lvm_move_laws.specs.Moving.{MovedIsDescribed};
ghost use Rattle.lvm_move_laws.specs.Serving.{MoveServes};
ghost use Rattle.lvm_move_laws.specs.Committing.{MoveStaysKept};
ghost use Rattle.lvm_move_laws.specs.Standing.{NextStands};

/// A state that describes what stands on the disks does so by the next descriptor, once the partition beside the group's
/// copies has the place of a copy.
pub fn moved_is_described()
    ensures { MovedIsDescribed }
{}

/// The next descriptor may be committed where a good state has its copies.
pub fn move_serves()
    ensures { MoveServes }
{}

/// Each crash image is kept while it is committed.
pub fn move_stays_kept()
    ensures { MoveStaysKept }
{}

/// The group stands by it once it is committed.
pub fn next_stands()
    ensures { NextStands }
{}
