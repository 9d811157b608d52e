//! Laws: what the answers of an earlier session leave of the one that is on.
ghost use Rattle.lvm_handover.specs.Earlier.{EarlierStaysBeside};

/// They leave it sound, and it runs on.
pub fn earlier_stays_beside()
    ensures { EarlierStaysBeside }
{}
