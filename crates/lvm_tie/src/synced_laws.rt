//! Laws of fresh copies. Each call does nothing: its contract is the law.
ghost use Rattle.lvm_tie.specs.Agreeing.{LiveAgree};

/// In a tied session each copy that is fresh by the committed status or the one in flight holds what a usable one does, at
/// each block that no write which has started goes over, unless it is loose.
pub fn live_agree()
    ensures { LiveAgree }
{}
