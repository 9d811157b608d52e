//! Laws of requests that land and are taken: each leaves a tied session tied. Each call does nothing: its contract is the
//! law.
ghost use Rattle.lvm_tie.specs.Lands.{LandTies, TakeTies};

/// A request that lands leaves a tied session tied.
pub fn land_ties()
    ensures { LandTies }
{}

/// So does an answer that is taken, or isn't there yet.
pub fn take_ties()
    ensures { TakeTies }
{}
