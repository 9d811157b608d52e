//! Laws over whole sessions. Each call does nothing: its contract is the law.
ghost use Rattle.lvm_status.specs.Runs.{FirstIsSound, StepsStaySound, RunsStaySound, InFlightStays, CommitsAreHeld, WrittenHasEnded, StampsRise, SettledStays, MissingStays, MissingIsNotWritten};

/// At each moment of a session a write that isn't started is one to a member that isn't missing and to
/// which this update hasn't gone; the update goes to each such member; and it is in flight until it is
/// committed and each of its writes has ended.
pub fn sessions_are_sound()
    ensures first { FirstIsSound }
    ensures steps { StepsStaySound }
    ensures runs { RunsStaySound }
{}

/// Two tables are never in flight: one that is stays so until it is committed, for good if it never is.
pub fn one_update_at_a_time()
    ensures { InFlightStays }
{}

/// What is committed was in flight, and disks with votes enough to write had it: each of them ended a
/// write of it well.
pub fn commits_are_held()
    ensures held { CommitsAreHeld }
    ensures written { WrittenHasEnded }
{}

/// No stamp is used twice, where none is set back.
pub fn stamps_are_used_once()
    ensures { StampsRise }
{}

/// A partition that the committed status and the one in flight call stale, and that is wanted stale, stays
/// so until it is wanted fresh.
pub fn staleness_stays()
    ensures { SettledStays }
{}

/// A disk that is missing stays so for the session, and no status is written to it any more.
pub fn missing_disks_stay()
    ensures stays { MissingStays }
    ensures unwritten { MissingIsNotWritten }
{}
