//! Laws of workloads. Each call does nothing: its contract is the law.
ghost use Rattle.lvm_load.specs.Landing.{MayLandWell, RequestsLandWell, TotalsAreWell};
ghost use Rattle.lvm_load.specs.Leaving.{WorkloadsLeaveOpen};
ghost use Rattle.lvm_load.specs.MovingLanding.{RequestsLandOnWay};

/// A workload leaves one request in the table for each client that has one open, beside as many as stood there before.
pub fn workloads_leave_open()
    ensures { WorkloadsLeaveOpen }
{}

/// While no transfer has failed since a session began and the power wasn't cut, each request of it lands as done or got, or for
/// want of a copy from the beginning. So none of a workload is lost, and none is refused where each had a copy.
pub fn requests_land_well()
    ensures land { RequestsLandWell }
    ensures totals { TotalsAreWell }
    // There is such a session.
    ensures met { MayLandWell }
{}

/// So it is while copies move and moves are committed: each request that is refused for want of a copy had none by the descriptor
/// of some moment of the way.
pub fn requests_land_while_copies_move()
    ensures { RequestsLandOnWay }
{}
