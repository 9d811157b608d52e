//! Whether a write of the status is due.
ghost use Rattle.std.specs.Prelude.{◌≡◌, not};
ghost use Rattle.std.specs.List.{list_any};
ghost use Rattle.lvm_num.specs.declared.descriptor.PvRow.{PvRow};
ghost use Rattle.lvm_num.specs.Disks.{has};
ghost use Rattle.lvm_session.specs.Fields.{core_of};
ghost use Rattle.lvm_session.specs.Enabled.{is_status_due, same_status};
ghost use Rattle.lvm_session.specs.Sound.{IsFitting};
ghost use Rattle.lvm_due.specs.Plain.{plain_status};

use lvm_session::{Event, Session};

// Whether something is wanted that isn't committed.
fn differs(session: &Session) -> bool
    ensures { result ≡ not (same_status session.now.updater.wanted session.now.updater.committed) }
{
    session.updater.differs()
}

// Whether a write of the status in flight isn't started.
fn any_is_unstarted(session: &Session) -> bool
    requires { IsFitting (core_of session.now) }
    ensures { result ≡ list_any (λ (row : PvRow). has session.now.updater.writes.unstarted row.disk) session.now.updater.group.pvs }
{
    let unstarted = session.updater.writes().unstarted;
    session
        .descriptor
        .pvs
        .as_slice()
        .iter()
        .any(|row| unstarted.has(row.disk))
}

fn is_status_due(session: &Session) -> bool
    requires { IsFitting (core_of session.now) }
    ensures { result ≡ is_status_due (core_of session.now) }
{
    if session.updater.in_flight().is_some() {
        return any_is_unstarted(session);
    }
    differs(session)
}

/// The start of a write of the status, where one is due, whether or not a buffer is there for it.
pub fn status_start(session: &Session) -> Option<Event>
    requires { IsFitting (core_of session.now) }
    ensures { result ≡ plain_status (core_of session.now) }
{
    if is_status_due(session) {
        Some(Event::StartStatus)
    } else {
        None
    }
}
