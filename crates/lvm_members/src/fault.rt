//! Why a group didn't change its rule of votes, or its size.
ghost use Rattle.lvm_members.specs.Commands.{IsOfRecords, IsFaultOf};

use lvm_core::CommitFault;

/// Why a group didn't change its rule of votes, or its size.
#[derive(Clone, Copy, Drop)]
pub enum RuleFault {
    /// The power was cut, and is off.
    Dark,
    /// The members that aren't missing, or those that were reached, have so many votes of so many, too few to write.
    WentOff { have: u32, total: u32 },
    /// A request is open.
    Busy,
    /// By the next rule of votes the members that aren't missing have so many of so many, too few; or a member is missing, where all are asked for.
    NoQuorum { have: u32, total: u32 },
    /// The history has few entries to spare, or the session few sequence numbers left.
    HistoryFull,
    /// Nothing was heard of a transfer until the patience had run out.
    Stuck,
    /// Want of memory.
    Memory,
}

// The fault of a command whose records were broken off by this one, which is of no disk's zeros.
pub(crate) fn rule_fault(fault: CommitFault) -> RuleFault
    requires { IsOfRecords fault }
    ensures { IsFaultOf fault result }
{
    match fault {
        CommitFault::Dark => RuleFault::Dark,
        CommitFault::WentOff { have, total } => RuleFault::WentOff { have, total },
        CommitFault::Stuck => RuleFault::Stuck,
        CommitFault::DiskFailed { .. } => unreachable!(),
    }
}
