//! Laws of group commands at rest. Each call does nothing: its contract is the law.
ghost use Rattle.lvm_volumes.specs.Even.{MklvKeepsEven, RmlvKeepsEven, OffIsEven, ZeroedVolumeIsEven, FewerAreEven};

/// What `mklv` writes, whatever its answer, keeps the usable copies of the volumes that were there even.
pub fn mklv_keeps_even()
    ensures { MklvKeepsEven }
{}

/// So does what `rmlv` writes.
pub fn rmlv_keeps_even()
    ensures { RmlvKeepsEven }
{}

/// A group whose volumes are all in mode off is even.
pub fn off_is_even()
    ensures { OffIsEven }
{}

/// Any group stays even with one volume more, of which all partitions are zeros.
pub fn zeroed_volume_is_even()
    ensures { ZeroedVolumeIsEven }
{}

/// Any group stays even with a volume less.
pub fn fewer_are_even()
    ensures { FewerAreEven }
{}
