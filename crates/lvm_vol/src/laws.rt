//! Laws over histories alone.
ghost use Rattle.lvm_vol.specs.Laws.{KnownPush, OthersStay, DoneCloses, GotFixes, LandedCloses, DisksAreTight, CutEndsAll, MayGrows, LegalPrefix, LegalPush, LegalThrough};

/// What each entry changes of what is known of a block, and what it leaves.
pub fn known_step_by_step()
    ensures push { KnownPush }
    ensures others { OthersStay }
    ensures done { DoneCloses }
    ensures got { GotFixes }
    ensures landed { LandedCloses }
    ensures disks { DisksAreTight }
    ensures cut { CutEndsAll }
    ensures grows { MayGrows }
{}

/// A legal history is legal at each of its entries, and grows by entries that may follow it.
pub fn legal_step_by_step()
    ensures prefix { LegalPrefix }
    ensures push { LegalPush }
    ensures through { LegalThrough }
{}
