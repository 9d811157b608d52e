//! Laws of turns. Each call does nothing: its contract is the law.
ghost use Rattle.lvm_keeps_events.specs.Reading.{ReadsGetTheirs};
ghost use Rattle.lvm_keeps_events.specs.Telling.{CountsNeverFall, RoomStays, TurnsTell};

/// What the answer of a turn tells of a sound session is so.
pub fn turns_tell()
    ensures { TurnsTell }
{}

/// A read lands as Got with blocks alone that a transfer of this very request has read.
pub fn reads_get_theirs()
    ensures { ReadsGetTheirs }
{}

/// A turn leaves a session the room that it has.
pub fn room_stays()
    ensures { RoomStays }
{}

/// No count of the shelf falls in a turn.
pub fn counts_never_fall()
    ensures { CountsNeverFall }
{}
