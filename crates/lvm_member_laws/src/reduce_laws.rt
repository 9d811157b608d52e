//! Laws of sessions over disks that leave their group. Each call does nothing: its contract is the law.
ghost use Rattle.lvm_member_laws.specs.Reducing.{ReduceFinds, ReduceGoesOn, ReduceLeavesOut, ReduceServes};

/// A span goes on over `reducevg`, whatever it answers; and what stands on the disks of the session goes on to stand, where
/// this does.
pub fn reduce_goes_on()
    ensures { ReduceGoesOn }
{}

/// Whatever is answered, each crash image that finds the group finds the descriptor that it had, or one on the way.
pub fn reduce_finds()
    ensures { ReduceFinds }
{}

/// Where the disks have left, nothing of the group is found by which one of them is a member, be its records erased or not.
pub fn reduce_leaves_out()
    ensures { ReduceLeavesOut }
{}

/// A sound session that `reducevg` leaves on is sound with requests.
pub fn reduce_serves()
    ensures { ReduceServes }
{}
