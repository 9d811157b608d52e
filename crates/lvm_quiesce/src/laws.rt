//! Laws of shelves whose transfers are ended, and of stamps on crash images. Each call does nothing: its contract is
//! the law.
ghost use Rattle.lvm_quiesce.specs.Laws.{EndsLeaveNoMore, EndsStayKept, EndsGoOn, EndsStayBehind, EndsStayOne, EndsStartNothing, StillIsAtRest, StillIsBehindEach, EachIsBehind, LaterIsBehindEach, StillIsAheadEach, QuietIsAhead};

/// Transfers that end, and a power cut meanwhile, only make fewer crash images. So what these are kept with they stay
/// kept with, spans go on, stamps stay before a moment, and what any disks find stays of one group.
pub fn ends_leave_no_more()
    ensures fewer { EndsLeaveNoMore }
    ensures kept { EndsStayKept }
    ensures keeps { EndsGoOn }
    ensures behind { EndsStayBehind }
    ensures one { EndsStayOne }
{}

/// Nothing is started meanwhile; and where nothing was out, nothing happens.
pub fn ends_start_nothing()
    ensures nothing { EndsStartNothing }
    ensures still { StillIsAtRest }
{}

/// On a shelf at which nothing is out the stamps of all crash images are from before a moment where those on the media
/// are; and those on the media are where those of all crash images are.
pub fn still_is_behind_each()
    ensures still { StillIsBehindEach }
    ensures each { EachIsBehind }
    ensures later { LaterIsBehindEach }
    ensures ahead { StillIsAheadEach }
    ensures quiet { QuietIsAhead }
{}
