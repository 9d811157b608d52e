//! Laws of copies that are rebuilt. Each call does nothing: its contract is the law.
ghost use Rattle.lvm_rebuild.specs.Rebuilding.{RebuildsEndSo};
ghost use Rattle.lvm_rebuild.specs.Worked.{MirrorsMayBeRebuilt};

/// Of the faults of moves `Missing`, `Strict` and `NoRoom` don't end a rebuilding.
pub fn rebuilds_end_so()
    ensures { RebuildsEndSo }
{}

/// The first copy of a volume that is mirrored on two of three disks may be rebuilt on the third, where that is a spare and the first disk is missing, in whatever
/// mode the volume is.
pub fn mirrors_may_be_rebuilt()
    ensures { MirrorsMayBeRebuilt }
{}
