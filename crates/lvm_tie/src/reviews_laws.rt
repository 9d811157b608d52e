//! Laws of what an event entails. Each call does nothing: its contract is the law.
ghost use Rattle.lvm_tie.specs.Near.{NearTies};
ghost use Rattle.lvm_tie.specs.Wanted.{ReviewIsWanted};

/// The state wants the staleness that a review wants.
pub fn review_is_wanted()
    ensures { ReviewIsWanted }
{}

/// The end of the open copy leaves a session tied that was tied but for it.
pub fn near_ties()
    ensures { NearTies }
{}
