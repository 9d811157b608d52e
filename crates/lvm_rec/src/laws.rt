//! Laws over the records of a disk. Each call does nothing: its contract is the law.
ghost use Rattle.lvm_rec.specs.Slots.{SlotHoldsOne, FramesAreRead, NewestStaysOrIsNew, WholeIsNewest, TornKeepsOthers, BeforeMayWrite, TornKeepsBefore, NoteStaysOrIsNew};

/// A slot holds at most one record, and its sectors are read as it, whatever follows them.
pub fn frames_are_read()
    ensures one { SlotHoldsOne }
    ensures read { FramesAreRead }
{}

/// A write to the slot that doesn't hold a disk's newest record leaves that the newest, or makes the
/// new one the newest once all of it stands there. All else on the disk stays.
pub fn newest_stays_or_is_new<X>()
    ensures torn { NewestStaysOrIsNew X }
    ensures whole { WholeIsNewest X }
    ensures others { TornKeepsOthers X }
{}

/// A record may be written under a stamp after all that stand in both slots, which then stand before
/// each later one.
pub fn later_stamps<X>()
    ensures may { BeforeMayWrite X }
    ensures kept { TornKeepsBefore }
{}

/// After a write of a note, of which one sector lands or doesn't, the disk has the old note or the new.
pub fn note_stays_or_is_new()
    ensures { NoteStaysOrIsNew }
{}
