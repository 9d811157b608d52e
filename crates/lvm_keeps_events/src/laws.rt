//! Laws: what the events of a turn leave of a sound session is sound, and less work.
ghost use Rattle.lvm_keeps.specs.Falls.{EventsFall, NeverStandsStill};
ghost use Rattle.lvm_keeps_events.specs.Events.{EventsKeep};
ghost use Rattle.lvm_keeps_events.specs.Missed.{MissedWritesWait};

/// Each event that a turn makes leaves the session sound.
pub fn events_keep()
    ensures { EventsKeep }
{}

/// The first event that may be made leaves less work.
pub fn events_fall()
    ensures { EventsFall }
{}

/// While the votes are there and no transfer is out, an event may be made unless each request has landed and no copy
/// is being brought up. Exempt are a move that is done, which is to be committed, and the requests on its logical
/// partition alone.
pub fn never_stands_still()
    ensures { NeverStandsStill }
{}

/// A session with a write that has failed on the destination of a move is sound while staleness of that is
/// wanted, and writes the status next. Where none is wanted it would stand still, and isn't sound.
pub fn missed_writes_wait()
    ensures { MissedWritesWait }
{}
