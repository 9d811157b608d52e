//! Laws. Each call does nothing: its contract is the law.
ghost use Rattle.lvm_tied_moves.specs.Worked.{MovesAreTied};

/// A session that is written out is tied and done with its move, in each mode, and its newest descriptors are spared.
pub fn moves_are_tied()
    ensures { MovesAreTied }
{}
