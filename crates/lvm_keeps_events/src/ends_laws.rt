//! Laws: what the end of a transfer of a sound session leaves is sound.
ghost use Rattle.lvm_keeps_events.specs.Ends.{CopyQuitKeeps, CopyReadEndKeeps, CopyReadFailKeeps, CopyWriteFailKeeps, CountsKeep, NoteEndKeeps};

/// A session stays sound whatever stands on the media, and however many transfers have failed since.
pub fn counts_keep()
    ensures { CountsKeep }
{}

/// The write of a note that ends well leaves the session sound.
pub fn note_end_keeps()
    ensures { NoteEndKeeps }
{}

/// So does the read by which a copy is brought up, where it ends well.
pub fn copy_read_end_keeps()
    ensures { CopyReadEndKeeps }
{}

/// So does the end of a transfer of a copy that had ended before.
pub fn copy_quit_keeps()
    ensures { CopyQuitKeeps }
{}

/// So does the write by which a copy is brought up, where it fails and the copy with it.
pub fn copy_write_fail_keeps()
    ensures { CopyWriteFailKeeps }
{}

/// So does the read by which a copy is brought up, where it fails: another source follows, or the copy ends.
pub fn copy_read_fail_keeps()
    ensures { CopyReadFailKeeps }
{}
