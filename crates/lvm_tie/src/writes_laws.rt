//! Laws of the ends of transfers of requests: each leaves a tied session tied. Each call does nothing: its contract is
//! the law.
ghost use Rattle.lvm_tie.specs.EndsWrites.{DataEndTies, WriteEndTies};

/// A transfer of a request that writes leaves a tied session tied where it ends, well or badly: with the staleness that
/// becomes wanted by it, and where the copy that is being brought up ends by it.
pub fn write_end_ties()
    ensures { WriteEndTies }
{}

/// So does one of any request.
pub fn data_end_ties()
    ensures { DataEndTies }
{}
