//! How a run ended.
ghost use Rattle.std.specs.Prelude.{◌≡◌};
ghost use Rattle.lvm_top.specs.Statuses.{code_of};

/// How a run of the program ended.
#[derive(Clone, Copy, Drop)]
pub enum ExitStatus {
    /// 0: the input, if the words ask for a run of it, was read to its end and nothing was refused; else what they ask for was written.
    Well,
    /// 1: the input was read to its end, and something was refused.
    Refusals,
    /// 2: the words of the command line ask for nothing.
    Usage,
    /// 3: the source failed.
    SourceFault,
    /// 4: the sink failed.
    SinkFault,
    /// 5: memory ran out for a run, or for a further line.
    Memory,
    /// 6: the shelf had nothing to tell a million times in one command.
    Stuck,
    /// 7: the source gave more than 16,777,216 bytes.
    TooLong,
}

impl ExitStatus {
    /// The number with which the program ends.
    pub fn code(self) -> u8
        ensures { result ≡ code_of self }
    {
        match self {
            ExitStatus::Well => 0,
            ExitStatus::Refusals => 1,
            ExitStatus::Usage => 2,
            ExitStatus::SourceFault => 3,
            ExitStatus::SinkFault => 4,
            ExitStatus::Memory => 5,
            ExitStatus::Stuck => 6,
            ExitStatus::TooLong => 7,
        }
    }
}
