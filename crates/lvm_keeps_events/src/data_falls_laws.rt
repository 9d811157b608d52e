//! Laws: what the end of a transfer of a sound session leaves is less work.
ghost use Rattle.lvm_keeps_events.specs.EndFalls.{CopyQuitFalls, CopyReadEndFalls, CopyReadFailFalls, CopyWriteEndFalls, CopyWriteFailFalls, DataEndFalls};

/// The end of a transfer of a request, well or badly, leaves less work.
pub fn data_end_falls()
    ensures { DataEndFalls }
{}

/// So does the read by which a copy is brought up, where it ends well.
pub fn copy_read_end_falls()
    ensures { CopyReadEndFalls }
{}

/// So does it where it fails, and another source follows or the copy ends.
pub fn copy_read_fail_falls()
    ensures { CopyReadFailFalls }
{}

/// So does the write by which a copy is brought up, where it ends well.
pub fn copy_write_end_falls()
    ensures { CopyWriteEndFalls }
{}

/// So does it where it fails, and the copy with it.
pub fn copy_write_fail_falls()
    ensures { CopyWriteFailFalls }
{}

/// So does a transfer of a copy that had ended before.
pub fn copy_quit_falls()
    ensures { CopyQuitFalls }
{}
