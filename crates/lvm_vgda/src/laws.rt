//! Laws over the bytes of descriptors. Each call does nothing: its contract is the law.
ghost use Rattle.lvm_vgda.specs.Laws.{SpelledIsRead, ReadIsSpelled};

/// The bytes of a descriptor that is valid are read as it; and where bytes are read as a descriptor,
/// it is valid and they are its bytes.
pub fn descriptors_are_exact()
    ensures spelled { SpelledIsRead }
    ensures read { ReadIsSpelled }
{}
