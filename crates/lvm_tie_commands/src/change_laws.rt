//! Laws of sessions over changes of their group's rule of votes or of its size. Each call does nothing: its contract is the law.
ghost use Rattle.lvm_tie_commands.specs.Changing.{ChangeFindsTwo, MakeBigGoesOn, MakeBigServes, SetQuorumGoesOn, SetQuorumServes};
ghost use Rattle.lvm_tie_commands.specs.Examples.{PairsMayChange};

/// A span goes on over `set_quorum`, whatever it answers; and what stands on the disks of the session goes on to stand,
/// where this does.
pub fn set_quorum_goes_on()
    ensures { SetQuorumGoesOn }
{}

/// So they do over `make_big`.
pub fn make_big_goes_on()
    ensures { MakeBigGoesOn }
{}

/// Whatever is answered, each crash image that finds the group finds the descriptor that it had, or the next one.
pub fn change_finds_two()
    ensures { ChangeFindsTwo }
{}

/// A sound session that `set_quorum` leaves on is sound with requests.
pub fn set_quorum_serves()
    ensures { SetQuorumServes }
{}

/// So is one that `make_big` leaves on.
pub fn make_big_serves()
    ensures { MakeBigServes }
{}

/// There are groups that may change so: of two disks that mirror a volume, in each mode, dirty or not. Checking isn't switched off
/// where a member is lost.
pub fn pairs_may_change()
    ensures { PairsMayChange }
{}
