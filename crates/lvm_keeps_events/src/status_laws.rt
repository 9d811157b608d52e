//! Laws: what the end of a write of a note or of the status leaves of a sound session is sound, and less work.
ghost use Rattle.lvm_keeps_events.specs.StatusEnds.{NoteEndFalls, NoteFailFalls, NoteFailKeeps, StatusEndFalls, StatusEndKeeps};

/// The write of a note that fails leaves the session sound: its disk is missing.
pub fn note_fail_keeps()
    ensures { NoteFailKeeps }
{}

/// So does a write of the status that ends, well or badly: the update may be committed by it, or its disk is missing.
pub fn status_end_keeps()
    ensures { StatusEndKeeps }
{}

/// The write of a note that ends well leaves less work.
pub fn note_end_falls()
    ensures { NoteEndFalls }
{}

/// So does one that fails.
pub fn note_fail_falls()
    ensures { NoteFailFalls }
{}

/// So does a write of the status that ends, well or badly.
pub fn status_end_falls()
    ensures { StatusEndFalls }
{}
