//! Laws of turns. Each call does nothing: its contract is the law.
ghost use Rattle.lvm_keeps_events.specs.Losing.{LossesJoin, TurnsLoseByFaults, VotesGoByFaults};

/// In a turn of a sound session a disk comes to be missing only where a transfer of it has failed.
pub fn turns_lose_by_faults()
    ensures { TurnsLoseByFaults }
{}

/// So it is over turns that follow each other.
pub fn losses_join()
    ensures { LossesJoin }
{}

/// Where disks come to be missing so alone, the votes are lost only where they were or a transfer has failed.
pub fn votes_go_by_faults()
    ensures { VotesGoByFaults }
{}
