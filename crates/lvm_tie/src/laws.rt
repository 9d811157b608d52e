//! Laws of a session that is tied to a good state of the induction. Each call does nothing: its contract is the law.
ghost use Rattle.lvm_tie.specs.Tied.{TiedOwns, GoodUpholds, GoodGoesOn};

/// A session that is tied to a good state has out what that has out; its history is legal, and each crash image
/// is kept with it; and a span goes on to it over a step of the shelf or an entry.
pub fn good_sessions()
    ensures owns { TiedOwns }
    ensures upholds { GoodUpholds }
    ensures goes_on { GoodGoesOn }
{}
