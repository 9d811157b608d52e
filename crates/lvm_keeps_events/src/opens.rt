//! Laws: what the opening of a copy of a sound session leaves is sound.
ghost use Rattle.lvm_keeps.specs.Keeps.{OpenKeeps};
ghost use Rattle.lvm_keeps_events.specs.Opening.{OpenMoveKeeps, SeenOpenKeeps};

/// A copy that is opened leaves the session sound, also one that is refused.
pub fn open_keeps()
    ensures { OpenKeeps }
{}

/// So does one of which the faults of disks are not asked that aren't on the shelf.
pub fn seen_open_keeps()
    ensures { SeenOpenKeeps }
{}

/// So does one that begins to move.
pub fn open_move_keeps()
    ensures { OpenMoveKeeps }
{}
