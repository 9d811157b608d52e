//! Laws of a session at which nothing is under way, by what stands on its disks. Each call does nothing: its contract is the law.
ghost use Rattle.lvm_tie.specs.Begins.{BeginsGood, BeginsTied, RestSpares, RestTies, TiedRests};

/// A session at rest is tied, where its disks hold what it says is committed, its usable copies are even, its notes
/// are home, and each crash image is kept with the history, in which no write is open.
pub fn rest_ties()
    ensures { RestTies }
{}

/// And on each member that isn't missing its next descriptor spares the newest one.
pub fn rest_spares()
    ensures { RestSpares }
{}

/// So is a session tied as it begins.
pub fn begins_tied()
    ensures { BeginsTied }
{}

/// So it is after each earlier history with which its run may have begun, where a span has led to it.
pub fn begins_good()
    ensures { BeginsGood }
{}

/// And the other way round: where a tied session is at rest, with votes enough to write, its disks show what it says is
/// committed and keep the history, the usable copies are even, and the notes are home.
pub fn tied_rests()
    ensures { TiedRests }
{}
