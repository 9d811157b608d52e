//! Laws of the transfers that are out of a session, and of what each of their ends leaves. Each call does nothing:
//! its contract is the law.
ghost use Rattle.lvm_crash.specs.Copies.{OneBlock};
ghost use Rattle.lvm_crash.specs.Owned.{OwnersHaveOut};
ghost use Rattle.lvm_crash.specs.Bringing.{ReadLeaves, ReadGets, StepEndsOnDisks};
ghost use Rattle.lvm_crash.specs.Writing.{EndsLand, WriteEnds};
ghost use Rattle.lvm_crash.specs.Records.{StatusEndMatches, NoteEndMatches, QuietLasts, UpdatesLast, UpdateGoesOn};

/// A sector of data is one block of one copy at most.
pub fn places_of_copies()
    ensures { OneBlock }
{}

/// Where each transfer that is out has its owner in the state, what is out is what the state has out.
pub fn owners_have_out()
    ensures { OwnersHaveOut }
{}

/// A transfer that ends leaves some of what it writes, and all of it where it ends well; and where a write of a
/// request ends, the session's state with that target restaged describes what stands then.
pub fn writes_end()
    ensures lands { EndsLand }
    ensures writes { WriteEnds }
{}

/// Where a write of the update or of a note ends, the session's state describes what stands then; and it does
/// where nothing on the media changes.
pub fn records_end()
    ensures statuses { StatusEndMatches }
    ensures notes { NoteEndMatches }
    ensures quiet { QuietLasts }
    ensures updates { UpdatesLast }
    ensures since { UpdateGoesOn }
{}

/// A read leaves the media as it is, and gets what its copy holds; and where a write of a step to its copy ends,
/// the session's state describes what stands then.
pub fn steps_end()
    ensures leaves { ReadLeaves }
    ensures gets { ReadGets }
    ensures steps { StepEndsOnDisks }
{}
