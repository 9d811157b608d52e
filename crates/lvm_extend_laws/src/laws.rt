//! Laws of a disk that joins a group. Each call does nothing: its contract is the law.
ghost use Rattle.lvm_extend_laws.specs.Examples.{SecondsJoin};
ghost use Rattle.lvm_extend_laws.specs.Joining.{JoiningFinds, JoiningIsCommitted, JoiningKeeps};
ghost use Rattle.lvm_extend_laws.specs.Writing.{JoiningIsHeld, JoiningWritesFind, JoiningWritesKeep};

/// While a disk joins a group each history that was kept is kept, whatever of the status and of the next descriptor has landed, where the disk that joins shows
/// that descriptor first; nothing of the group is found but the two descriptors, and of other groups what was found.
pub fn joining_keeps()
    ensures keeps { JoiningKeeps }
    ensures finds { JoiningFinds }
{}

/// Once both records stand on the disk that joins and on members with votes enough by both descriptors, the next one is the committed one.
pub fn joining_is_committed()
    ensures { JoiningIsCommitted }
{}

/// There is a group that a disk joins: one member, with quorum checking or without.
pub fn disks_may_join()
    ensures { SecondsJoin }
{}

/// So it is of crash images while the two records are written: whatever of their sectors has landed, each history that was kept is kept.
pub fn joining_writes_keep()
    ensures keeps { JoiningWritesKeep }
    ensures finds { JoiningWritesFind }
{}

/// Once both stand whole on the disk that joins and on members with votes enough by both descriptors, the image holds the next one as committed, and the next record of
/// each kind spares the newest.
pub fn joining_is_held()
    ensures { JoiningIsHeld }
{}
