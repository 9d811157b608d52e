//! Laws of the starts of transfers of data: each leaves a tied session tied. Each call does nothing: its contract is the
//! law.
ghost use Rattle.lvm_tie.specs.Starts.{CopyReadTies, CopyWriteTies, DataStartTies};

/// A transfer of a request that starts leaves a tied session tied: the first of a write, a further one, and one of a
/// read.
pub fn data_start_ties()
    ensures { DataStartTies }
{}

/// So do the read and the write by which a copy is brought up.
pub fn copy_starts_tie()
    ensures reads { CopyReadTies }
    ensures writes { CopyWriteTies }
{}
