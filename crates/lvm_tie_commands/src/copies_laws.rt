//! Laws of sessions over commands on copies. Each call does nothing: its contract is the law.
ghost use Rattle.lvm_tie_commands.specs.Copies.{MklvcopyGoesOn, RmlvcopyGoesOn, SplitGoesOn};
ghost use Rattle.lvm_tie_commands.specs.Serving.{MklvcopyServes, RmlvcopyServes};
ghost use Rattle.lvm_tie_commands.specs.Sharing.{SplitShares, WritesStayApart};

/// A sound session that `mklvcopy` leaves on is sound with requests, once the added copies count as stale from its
/// beginning.
pub fn mklvcopy_serves()
    ensures { MklvcopyServes }
{}

/// So is one that `rmlvcopy` leaves on.
pub fn rmlvcopy_serves()
    ensures { RmlvcopyServes }
{}

/// A span goes on over `mklvcopy`, whatever it answers; and what stands on the disks of the session goes on to stand,
/// where this does.
pub fn mklvcopy_goes_on()
    ensures { MklvcopyGoesOn }
{}

/// So they do over `rmlvcopy`, where each logical partition keeps a fresh copy on a member that shows the group.
pub fn rmlvcopy_goes_on()
    ensures { RmlvcopyGoesOn }
{}

/// So they do over `split`, whatever the mode of the volume.
pub fn split_goes_on()
    ensures { SplitGoesOn }
{}

/// Behind a split that is answered with a number both volumes are there, and each block that wasn't loose has one value on
/// all usable copies of both. Where data changes at most in partitions of one volume of a group, no block of another does.
pub fn split_shares()
    ensures same { SplitShares }
    ensures apart { WritesStayApart }
{}
