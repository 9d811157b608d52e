//! Laws of a sound session.
ghost use Rattle.lvm_keeps_events.specs.Uncaught.{LostIsUncaught};

/// The copy that is being brought up has passed no target of a write whose transfers have all ended and which isn't
/// kept.
pub fn lost_is_uncaught()
    ensures { LostIsUncaught }
{}
