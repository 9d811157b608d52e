//! Laws: what the start of a transfer of a sound session leaves is sound, and less work.
ghost use Rattle.lvm_keeps.specs.Keeps.{CopyWriteKeeps, DataStartKeeps, StatusStartKeeps};
ghost use Rattle.lvm_keeps_events.specs.Falls.{CopyWriteFalls, DataStartFalls, StatusStartFalls};

/// The start of the write by which a copy is brought up leaves the session sound.
pub fn copy_write_keeps()
    ensures { CopyWriteKeeps }
{}

/// So does the start of a transfer of a request.
pub fn data_start_keeps()
    ensures { DataStartKeeps }
{}

/// So does the start of a write of the status.
pub fn status_start_keeps()
    ensures { StatusStartKeeps }
{}

/// The start of the write by which a copy is brought up leaves less work.
pub fn copy_write_falls()
    ensures { CopyWriteFalls }
{}

/// So does the start of a transfer of a request.
pub fn data_start_falls()
    ensures { DataStartFalls }
{}

/// So does the start of a write of the status.
pub fn status_start_falls()
    ensures { StatusStartFalls }
{}
