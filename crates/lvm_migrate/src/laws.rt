//! Laws of copies that leave a disk. The call does nothing: its contract is the law.
ghost use Rattle.lvm_migrate.specs.Worked.{MirrorsMayMigrate};

/// The second copy of a volume that is mirrored on two of three disks may leave its disk for the third, in whatever mode the
/// volume is.
pub fn mirrors_may_migrate()
    ensures { MirrorsMayMigrate }
{}
