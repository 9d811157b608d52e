//! Laws of the ends of writes of the status: each leaves a tied session tied. Each call does nothing: its contract is the law.
ghost use Rattle.lvm_tie.specs.Statuses.{StatusEndTies};

/// A write of the update in flight leaves a tied session tied where it ends, well or badly.
pub fn status_end_ties()
    ensures { StatusEndTies }
{}
