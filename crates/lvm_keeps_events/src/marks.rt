//! Laws of turns. The call does nothing: its contract is the law.
ghost use Rattle.lvm_keeps_events.specs.Losses.{TurnsMark};

/// A turn of a sound session makes copies stale for their causes alone, and only the copy that is open fresh.
pub fn turns_mark()
    ensures { TurnsMark }
{}
