//! Laws of what stands on the disks of a session. Each call does nothing: its contract is the law.
ghost use Rattle.lvm_crash.specs.Worked.{GroupsHaveVotes, RestMatches, WritingMatches, SteppingMatches, UpdatingMatches, NotingMatches};
ghost use Rattle.lvm_crash.specs.Standing.{CommittedIsFound};
ghost use Rattle.lvm_crash.specs.Lasting.{DescriptionLasts, StatusesLast};
ghost use Rattle.lvm_crash.specs.Laws.{WhatRemainsIsKept, CrashImagesRemain, CrashImagesAreKept, LastImagesAreKept, CutIsKept, OffIsKept};

/// Where the state of a session describes what stands on the disks, whatever a loss of power may leave of it
/// keeps the history: it agrees with it, and goes on doing so whichever disks answer next.
pub fn what_remains_is_kept()
    ensures { WhatRemainsIsKept }
{}

/// Where the state of a session matches a shelf, so that what is out is what the state has out, each crash image
/// shows what a loss of power may leave of the state: each block old or new, each record old or new.
pub fn crash_images_remain()
    ensures { CrashImagesRemain }
{}

/// So where a good state matches a shelf, each crash image of the shelf keeps the history; and once the session
/// is over, each that the shelf might have left at its last moment keeps the history with the landings as Off or
/// as Dark of what was open.
pub fn crash_images_are_kept()
    ensures on { CrashImagesAreKept }
    ensures over { LastImagesAreKept }
{}

/// At each moment of the end of a session, from its last matching shelf on: after a cut of the power, after each
/// landing as Dark, and after each landing as Off, each crash image keeps the history.
pub fn ends_are_kept()
    ensures cut { CutIsKept }
    ensures off { OffIsKept }
{}

/// Where disks with votes enough to write show a descriptor of the group and no disk a later one, whichever
/// disks find the group find it by that descriptor.
pub fn committed_is_found()
    ensures { CommittedIsFound }
{}

/// Each group has votes, and there are good sessions that match a shelf, byte by byte, in each mode: at rest, with
/// a stale copy or without; with a write out to both copies; with a copy being brought up, to which the write of
/// a step is out; and with a status out to both disks. So there is one in mode active with a note out.
pub fn sessions_match()
    ensures votes { GroupsHaveVotes }
    ensures rest { RestMatches }
    ensures writing { WritingMatches }
    ensures stepping { SteppingMatches }
    ensures updating { UpdatingMatches }
    ensures noting { NotingMatches }
{}

/// Each event leaves a state that describes the disks, where they show what it says of blocks, notes and statuses;
/// and what is asked of the statuses is kept where an update begins under a later stamp, moves and ends.
pub fn description_lasts()
    ensures events { DescriptionLasts }
    ensures statuses { StatusesLast }
{}
