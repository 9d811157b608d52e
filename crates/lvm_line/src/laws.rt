//! Laws of lines. Each call does nothing: its contract is the law.
ghost use Rattle.lvm_line.specs.Causes.{CauseLaw, VaryonLaw, NoQuorumLaw};
ghost use Rattle.lvm_line.specs.Complete.{CompleteLaw, NothingMayFail, NothingMayFailAnswered, RuleLaw};
ghost use Rattle.lvm_line.specs.Told.{NothingMayHappen, ToldLaw, ToldWellLaw};

/// A line is refused for what its shelf or the clock did only where that has happened.
pub fn refusals_have_causes()
    ensures { CauseLaw }
{}

/// A post is answered otherwise than well only where a transfer has failed since its session began, where the power was cut, or
/// for want of a copy; so it ends, where its session is over before its answer is taken.
pub fn posts_end_for_causes()
    ensures told { ToldLaw }
    // Where neither has happened each is done, or had no copy to go to.
    ensures well { ToldWellLaw }
    // There is such a line.
    ensures met { NothingMayHappen }
{}

/// A line in which no transfer failed, the power wasn't cut and the shelf didn't wait a million times is refused, if it is, by a
/// rule of its own, for want of memory, or since the votes were lost before it.
pub fn lines_are_complete()
    ensures complete { CompleteLaw }
    ensures rule { RuleLaw }
    // There are such lines, refused and answered.
    ensures met { NothingMayFail }
    ensures answered { NothingMayFailAnswered }
{}

/// What a `varyonvg` leaves that is answered `ok`, and that one which lacks its quorum has written nothing, nor a `chvg`
/// behind the turns that it makes first.
pub fn varyons_restate()
    ensures on { VaryonLaw }
    ensures quorum { NoQuorumLaw }
{}
