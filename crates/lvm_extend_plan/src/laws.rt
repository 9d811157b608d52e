//! Members join one after the other. Each call does nothing: its contract is the law.
ghost use Rattle.lvm_extend_plan.specs.Examples.{GroupsMayGrow};
ghost use Rattle.lvm_extend_plan.specs.Steps.{JoinOneByOne};

/// Where disks may join a group, the first of them may, and the others may join it then; all of them make the same group.
pub fn members_join_one_by_one()
    ensures { JoinOneByOne }
{}

/// There are groups that disks may join: three members, two that aren't even, and one.
pub fn members_may_join()
    ensures { GroupsMayGrow }
{}
