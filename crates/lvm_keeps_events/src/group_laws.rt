//! Laws: what the end of a write leaves by which a copy is brought up.
ghost use Rattle.lvm_keeps_events.specs.GroupEnds.{CopyWriteEndKeeps};

/// The write by which a copy is brought up leaves the session sound where it ends well: its next track group follows,
/// or its clearing is wanted.
pub fn copy_write_end_keeps()
    ensures { CopyWriteEndKeeps }
{}
