//! Laws of the ends of transfers: each leaves a tied session tied. Each call does nothing: its contract is the law.
ghost use Rattle.lvm_tie.specs.Ends.{ReadEndTies};

/// A transfer of a request that reads leaves a tied session tied where it ends, well or badly.
pub fn read_end_ties()
    ensures { ReadEndTies }
{}
