//! Worked sessions. The call does nothing: its contract is the law.
ghost use Rattle.lvm_reduce.specs.Examples.{MembersMayLeave};

/// There are sessions which members may leave, also one that is missing, and each cause that stands against it by its members.
pub fn members_may_leave()
    ensures { MembersMayLeave }
{}
