//! Laws of commands by which a group changes while its members stay. The call does nothing: its contract is the law.
ghost use Rattle.lvm_members.specs.Worked.{MirrorsMayHaveSpares};

/// Of three disks, on two of which a volume is mirrored, the third may be a spare, and each other may not, in whatever mode the volume is.
pub fn mirrors_may_have_spares()
    ensures { MirrorsMayHaveSpares }
{}
