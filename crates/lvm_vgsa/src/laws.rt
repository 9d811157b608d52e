//! Laws over the bytes of statuses. Each call does nothing: its contract is the law.
ghost use Rattle.lvm_vgsa.specs.Laws.{WrittenIsRead, ReadIsWritten};

/// Writing and reading are each other's inverse: what was written of a valid status is read as that
/// status, and no other bytes are read.
pub fn written_is_read()
    ensures again { WrittenIsRead }
    ensures only { ReadIsWritten }
{}
