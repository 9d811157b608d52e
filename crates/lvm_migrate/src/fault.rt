//! Why copies don't move.
use lvm_core::CommitFault;
use lvm_move_plan::PlanFault;
use lvm_session::OpenFault;

ghost use Rattle.std.specs.Prelude.{◌≡◌};
ghost use Rattle.lvm_migrate.specs.Faults.{IsOfOpening, commit_fault_is, opening_fault_is, plan_fault_is};

/// Why copies don't move, or no more of them; those that have moved before stay moved. In this order at entry, where
/// `Memory` may come before `Strict`.
#[derive(Clone, Copy, Debug, PartialEq, Eq)]
pub enum MoveFault {
    /// The power is off, and the session is over.
    Dark,
    /// The members that aren't missing have so many votes of so many, too few to write, and the session is over.
    WentOff { have: u32, total: u32 },
    /// A copy is open.
    Busy,
    /// The second disk is missing, at entry or when a later copy begins to move.
    Missing { disk: u16 },
    /// The second disk has another copy of a logical partition, from 0, that would move; the first such is carried.
    Strict { lp: u32 },
    /// The second disk has only so many free partitions, fewer than there are copies to move.
    NoRoom { free: u32 },
    /// Fewer than 65,536 numbers are left for the stamps of records.
    HistoryFull,
    /// The second disk failed, which is carried, or each copy that it might be read from.
    SyncFailed { disk: u16 },
    /// No copy of a logical partition, from 0, could be read.
    NoFresh { lp: u32 },
    /// Nothing was heard of the transfers that are out until the patience had run out. The copy stays open, unless it was
    /// being committed.
    Stuck,
    /// Want of memory: a growth was refused.
    Memory,
}

impl From<PlanFault> for MoveFault {
    ghost from_gives = { λ why e. e ≡ plan_fault_is why };

    fn from(why: PlanFault) -> MoveFault {
        match why {
            PlanFault::Strict { lp } => MoveFault::Strict { lp },
            PlanFault::NoRoom { free } => MoveFault::NoRoom { free },
            PlanFault::Memory => MoveFault::Memory,
        }
    }
}

impl From<CommitFault> for MoveFault {
    ghost from_gives = { λ why e. e ≡ commit_fault_is why };

    fn from(why: CommitFault) -> MoveFault {
        match why {
            CommitFault::Dark => MoveFault::Dark,
            CommitFault::WentOff { have, total } => MoveFault::WentOff { have, total },
            CommitFault::DiskFailed { disk } => MoveFault::SyncFailed { disk },
            CommitFault::Stuck => MoveFault::Stuck,
        }
    }
}

/// Why a copy that is planned to move isn't opened. `off` is the votes of a session that is off.
pub fn opening_fault(why: OpenFault, lp: u32, off: (u32, u32)) -> MoveFault
    requires { IsOfOpening why }
    ensures { result ≡ opening_fault_is why lp off }
{
    match why {
        OpenFault::Dark => MoveFault::Dark,
        OpenFault::Off => MoveFault::WentOff {
            have: off.0,
            total: off.1,
        },
        OpenFault::Missing { disk } => MoveFault::Missing { disk },
        OpenFault::NoFresh => MoveFault::NoFresh { lp },
        OpenFault::HistoryFull => MoveFault::HistoryFull,
        OpenFault::Memory => MoveFault::Memory,
        OpenFault::Busy | OpenFault::NoVolume | OpenFault::OutOfRange | OpenFault::InUse => {
            unreachable!()
        }
    }
}
