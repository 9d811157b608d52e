//! Why a range isn't read or written, as the refusal of its line.
ghost use Rattle.std.specs.Prelude.{◌≡◌};
ghost use Rattle.lvm_range_lines.specs.Refusals.{ask_refusal, range_refusal};

use lvm_group_lines::Refusal;
use lvm_group_lines::below::ranges::AskRangeFault;
use lvm_posts::RangeFault;

/// Why a range isn't asked for.
pub fn ask_refusal(fault: AskRangeFault) -> Refusal
    ensures { result ≡ ask_refusal fault }
{
    match fault {
        AskRangeFault::NoVolume => Refusal::NoVolume,
        AskRangeFault::OutOfRange { blocks } => Refusal::OutOfRange { blocks },
        AskRangeFault::TableFull { held } => Refusal::TableFull { held },
        AskRangeFault::HistoryFull => Refusal::HistoryFull,
    }
}

/// Why one that was asked for ended otherwise than well.
pub fn range_refusal(fault: RangeFault) -> Refusal
    ensures { result ≡ range_refusal fault }
{
    match fault {
        RangeFault::Dark => Refusal::Dark,
        RangeFault::Stuck => Refusal::Stuck,
        RangeFault::WentOff { have, total } => Refusal::WentOff { have, total },
        RangeFault::Lost => Refusal::Lost,
        RangeFault::ReadFailed => Refusal::ReadFailed,
        RangeFault::NoFresh { lp } => Refusal::NoFresh { lp },
    }
}
