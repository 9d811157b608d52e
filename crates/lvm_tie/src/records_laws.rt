//! Laws of the starts of writes of records: each leaves a tied session tied. Each call does nothing: its contract is the
//! law.
ghost use Rattle.lvm_tie.specs.Records.{NoteStartTies, StatusStartTies};

/// The write of a note that starts leaves a tied session tied.
pub fn note_start_ties()
    ensures { NoteStartTies }
{}

/// So does a write of the status that starts, the first of an update or a further one, where what is wanted is a status
/// that a record can have.
pub fn status_start_ties()
    ensures { StatusStartTies }
{}
