//! Laws: what a request of a sound session leaves that moves on is sound.
ghost use Rattle.lvm_keeps.specs.Keeps.{AdmissionKeeps, LandingKeeps};
ghost use Rattle.lvm_keeps_events.specs.MoveFalls.{AdmissionFalls};

/// A request that lands leaves the session sound.
pub fn landing_keeps()
    ensures { LandingKeeps }
{}

/// So does a request that is admitted, or admitted again, with its targets chosen.
pub fn admission_keeps()
    ensures { AdmissionKeeps }
{}

/// A request that is admitted leaves less work while the votes are there.
pub fn admission_falls()
    ensures { AdmissionFalls }
{}
