//! Laws: what a sound session is ready for.
ghost use Rattle.lvm_moves.specs.Ready.{FirstStartCan, FirstStartHasFlight, SessionsMayChoose};

/// Where a transfer may be started, fewer are out than there are buffers.
pub fn first_start_has_flight()
    ensures { FirstStartHasFlight }
{}

/// The first transfer of a turn that may be started can be, while the votes are there.
pub fn first_start_can()
    ensures { FirstStartCan }
{}

/// The targets of a request may be chosen.
pub fn sessions_may_choose()
    ensures { SessionsMayChoose }
{}
