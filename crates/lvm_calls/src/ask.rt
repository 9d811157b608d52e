//! Why a request isn't taken.
ghost use Rattle.std.specs.Prelude.{◌≡◌, ◌+◌, ◌<◌, ◌^◌};
ghost use Rattle.lvm_path.specs.Asks.{at_of, count_of};
ghost use Rattle.lvm_session.specs.Fields.{core_of};
ghost use Rattle.lvm_session.specs.Calls.{ask_fault, fault_in, fault_on, has_history, has_numbers};
ghost use Rattle.lvm_session.specs.Sound.{IsFitting};

use lvm_due::partition_blocks;
use lvm_num::volume_of;
use lvm_path::Ask;
use lvm_session::{AskFault, Power, Session};

/// Whether more than 65,535 numbers are left for the stamps of records.
pub fn has_numbers(session: &Session) -> bool
    ensures { result ≡ has_numbers (core_of session.now) }
{
    u64::from(session.updater.stamp().seq) + 65_536 < 1 << 32
}

fn has_history(session: &Session, ask: &Ask) -> bool
    ensures { result ≡ has_history (core_of session.now) ask.now }
{
    session.history.spare_entries() >= 3
        && session.history.spare_bytes() >= 512 * u64::from(ask.count())
        && has_numbers(session)
}

fn fault_in(session: &Session, ask: &Ask, blocks: u64) -> Option<AskFault>
    requires fitting { IsFitting (core_of session.now) }
    requires fits { at_of ask.now + count_of ask.now < 2 ^ 64 }
    ensures { result ≡ fault_in (core_of session.now) ask.now blocks }
{
    let held = session.requests.len();
    if blocks < ask.at() + u64::from(ask.count()) {
        Some(AskFault::OutOfRange { blocks })
    } else if held >= session.most as usize {
        Some(AskFault::TableFull { held: held as u32 })
    } else if has_history(session, ask) {
        None
    } else {
        Some(AskFault::HistoryFull)
    }
}

fn fault_on(session: &Session, ask: &Ask) -> Option<AskFault>
    requires fitting { IsFitting (core_of session.now) }
    requires fits { at_of ask.now + count_of ask.now < 2 ^ 64 }
    ensures { result ≡ fault_on (core_of session.now) ask.now }
{
    match volume_of(&session.descriptor, ask.lv()) {
        None => Some(AskFault::NoVolume),
        Some(row) => fault_in(
            session,
            ask,
            partition_blocks(session.descriptor.mib) * u64::from(row.lps),
        ),
    }
}

/// Why a request isn't taken, in the order of `AskFault`; None where it may be submitted.
pub fn ask_fault(session: &Session, ask: &Ask) -> Option<AskFault>
    requires fitting { IsFitting (core_of session.now) }
    requires fits { at_of ask.now + count_of ask.now < 2 ^ 64 }
    ensures { result ≡ ask_fault (core_of session.now) ask.now }
{
    match session.power {
        Power::Dark => Some(AskFault::Dark),
        Power::Off => Some(AskFault::Off),
        Power::On | Power::Stuck => fault_on(session, ask),
    }
}
