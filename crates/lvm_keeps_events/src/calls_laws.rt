//! Laws: what the calls of a client leave of a sound session is sound.
ghost use Rattle.lvm_keeps.specs.Keeps.{SubmitKeeps};

/// A request that is submitted leaves the session sound, whether it is taken or refused.
pub fn submit_keeps()
    ensures { SubmitKeeps }
{}
