//! Laws. Each call does nothing: its contract is the law.
ghost use Rattle.lvm_move_tie.specs.Going.{CommitMoveFinds, CommitMoveGoesOn};
ghost use Rattle.lvm_move_tie.specs.Moved.{MovedMovesIn};
ghost use Rattle.lvm_move_tie.specs.Restating.{RestatingKeeps};
ghost use Rattle.lvm_move_tie.specs.Taking.{DrainedTakesPlace};
ghost use Rattle.lvm_move_tie.specs.Tying.{MoveTies};
ghost use Rattle.lvm_move_tie.specs.Worked.{PlacesMayBeTaken};

/// The descriptor in which a copy stands on another partition has the copies of the group but for that one, and differs
/// from the group in that volume alone.
pub fn moved_moves_in()
    ensures { MovedMovesIn }
{}

/// A written-out state may have its partition beside take the place of a copy.
pub fn places_may_be_taken()
    ensures { PlacesMayBeTaken }
{}

/// So may that of a tied session whose move is done, where turns find nothing to do.
pub fn drained_takes_place()
    ensures { DrainedTakesPlace }
{}

/// A good state is good where its statuses are written anew.
pub fn restating_keeps()
    ensures { RestatingKeeps }
{}

/// A tied session is tied by the next descriptor once the commit of its move has ended well, also where members were lost
/// meanwhile.
pub fn move_ties()
    ensures { MoveTies }
{}

/// A good session whose move is done goes on over its commit, whatever it answers; and each crash image finds what was
/// found before, or the next descriptor.
pub fn move_goes_on()
    ensures goes { CommitMoveGoesOn }
    ensures finds { CommitMoveFinds }
{}
