//! Laws of sessions that are worked by hand. Each call does nothing: its contract is the law.
ghost use Rattle.lvm_tie.specs.Pairs.{PairsAreTied};

/// A session that has come on over two disks that mirror a volume meets all that is asked of one at rest, and is
/// tied: in each mode, dirty or not, also where a member is lost, and after a cut while the first block was written.
pub fn pairs_are_tied()
    ensures { PairsAreTied }
{}
