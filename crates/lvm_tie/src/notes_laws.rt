//! Laws of the ends of writes of notes: each leaves a tied session tied. Each call does nothing: its contract is the law.
ghost use Rattle.lvm_tie.specs.Notes.{NoteEndTies};

/// The write of a note leaves a tied session tied where it ends, well or badly.
pub fn note_end_ties()
    ensures { NoteEndTies }
{}
