//! Laws: what each event of a sound session leaves is sound.
ghost use Rattle.lvm_keeps.specs.Begins.{BeginningIsSound};
ghost use Rattle.lvm_keeps.specs.Falls.{CopyReadFalls, LandingFalls, LeftIsBounded, NoteStartFalls, OverLeavesNothing, PinFalls};
ghost use Rattle.lvm_keeps.specs.Keeps.{CloseKeeps, CopyReadKeeps, CutKeeps, FirstStartIsNoted, FirstStartIsWhole, LandingIsCaused, LossIsCaused, NoteStartKeeps, OffKeeps, OrderKeeps, PinKeeps, TakeKeeps, WaitKeeps};

/// A session is sound as it begins.
pub fn beginning_is_sound()
    ensures { BeginningIsSound }
{}

/// A request that pins its track group leaves the session sound.
pub fn pin_keeps()
    ensures { PinKeeps }
{}

/// So does the start of a read by which a copy is brought up.
pub fn copy_read_keeps()
    ensures { CopyReadKeeps }
{}

/// So does the start of a note's write.
pub fn note_start_keeps()
    ensures { NoteStartKeeps }
{}

/// A copy that is closed leaves the session sound.
pub fn close_keeps()
    ensures { CloseKeeps }
{}

/// So does a turn in which no transfer has ended.
pub fn wait_keeps()
    ensures { WaitKeeps }
{}

/// So does the end of a session whose votes are lost.
pub fn off_keeps()
    ensures { OffKeeps }
{}

/// So does the end of a session whose power is found off, or cut.
pub fn cut_keeps()
    ensures { CutKeeps }
{}

/// So does an order that a client gives to the shelf, also where the session is over.
pub fn order_keeps()
    ensures { OrderKeeps }
{}

/// So does a request whose answer is taken, also in a session that is over.
pub fn take_keeps()
    ensures { TakeKeeps }
{}

/// A request that lands as lost, as a read that failed or as one without a copy does so since disks have failed, or
/// no copy could be used when the session began.
pub fn landing_is_caused()
    ensures { LandingIsCaused }
{}

/// The votes of a session are lost only where some disk has failed since it began.
pub fn loss_is_caused()
    ensures { LossIsCaused }
{}

/// A write that starts its first transfer goes to each copy, but for those that are settled as stale and that the
/// copying hasn't passed.
pub fn first_start_is_whole()
    ensures { FirstStartIsWhole }
{}

/// A request that pins its track group leaves less work.
pub fn pin_falls()
    ensures { PinFalls }
{}

/// The work that is left is at most 1,024 for each open request, for each member that isn't missing and for a copy
/// that is open, 16 for each track group that is left of it, and 1 for each transfer that is out.
pub fn left_is_bounded()
    ensures { LeftIsBounded }
{}

/// A request that lands leaves less work.
pub fn landing_falls()
    ensures { LandingFalls }
{}

/// So does the start of the read by which a copy is brought up.
pub fn copy_read_falls()
    ensures { CopyReadFalls }
{}

/// So does the start of a note's write.
pub fn note_start_falls()
    ensures { NoteStartFalls }
{}

/// Nothing is left once a session is over.
pub fn over_leaves_nothing()
    ensures { OverLeavesNothing }
{}

/// A write that starts its first transfer at two targets or more has the records that its volume keeps.
pub fn first_start_is_noted()
    ensures { FirstStartIsNoted }
{}
