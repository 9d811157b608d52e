//! Laws: what a turn of a sound session leaves is sound, and less work.
ghost use Rattle.lvm_keeps.specs.Falls.{EndsFall};
ghost use Rattle.lvm_keeps.specs.Keeps.{EndKeeps};
ghost use Rattle.lvm_keeps_events.specs.Turning.{TurnEnds, TurnFalls, TurnKeeps};

/// Each end of a transfer leaves the session sound.
pub fn ends_keep()
    ensures { EndKeeps }
{}

/// Each end of a transfer leaves less work, where no event may be made.
pub fn ends_fall()
    ensures { EndsFall }
{}

/// A turn leaves the session sound.
pub fn turn_keeps()
    ensures { TurnKeeps }
{}

/// A turn that has moved leaves less work.
pub fn turn_falls()
    ensures { TurnFalls }
{}

/// A turn that answers that the session is over leaves it sound and over: each request has landed, and nothing is
/// out.
pub fn turn_ends()
    ensures { TurnEnds }
{}
