//! Which events a request might make, as far as it shows by itself.
ghost use Rattle.std.specs.Prelude.{◌≡◌};
ghost use Rattle.lvm_due.specs.Making.{might_make_admission, might_make_data, might_make_landing, might_make_note};

use crate::below::is_unbegun;
use crate::phases::{are_at_rest, might_transfer};
use lvm_path::{Phase, Request};

/// Whether it might land.
pub fn might_make_landing(request: &Request) -> bool
    ensures { result ≡ might_make_landing request.now }
{
    match request.phase {
        Phase::Held | Phase::WantEntry | Phase::WantRecord | Phase::WantStatus => true,
        Phase::Data => {
            if request.ask.is_write() {
                is_unbegun(request)
            } else {
                are_at_rest(&request.targets)
            }
        }
        Phase::Landed => false,
    }
}

/// Whether it might be admitted, or admitted again.
pub fn might_make_admission(request: &Request) -> bool
    ensures { result ≡ might_make_admission request.now }
{
    match request.phase {
        Phase::Held | Phase::WantEntry | Phase::WantRecord => true,
        Phase::Data => is_unbegun(request),
        Phase::WantStatus | Phase::Landed => false,
    }
}

/// Whether a note might be started for it.
pub fn might_make_note(request: &Request) -> bool
    ensures { result ≡ might_make_note request.now }
{
    matches!(request.phase, Phase::WantRecord) && request.pinned
}

/// Whether a transfer of its data might be started.
pub fn might_make_data(request: &Request) -> bool
    ensures { result ≡ might_make_data request.now }
{
    match request.phase {
        Phase::WantRecord => true,
        Phase::Data => might_transfer(request),
        Phase::Held | Phase::WantEntry | Phase::WantStatus | Phase::Landed => false,
    }
}
