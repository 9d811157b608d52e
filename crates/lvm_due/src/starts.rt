//! Whether the votes are lost, and whether a buffer is there.
ghost use Rattle.std.specs.Prelude.{◌≡◌};
ghost use Rattle.std.specs.List.{list_any};
ghost use Rattle.lvm_num.specs.declared.status.StatusRow.{StatusRow};
ghost use Rattle.lvm_due.specs.passed.Session.{core_of, votes_there, copy_write, has_buffer, is_lost, IsFitting};

use crate::below::{Event, Session, Step};
use crate::standing::is_running;

// Whether some row of the wanted status calls its disk missing.
fn is_any_missing(session: &Session) -> bool
    ensures { result ≡ list_any (λ (row : StatusRow). row.missing) session.now.updater.wanted.rows }
{
    session
        .updater
        .wanted()
        .as_status()
        .rows
        .as_slice()
        .iter()
        .any(|row| row.missing)
}

// The votes of the members that aren't missing: those of all where none is.
fn votes_there(session: &Session) -> u32
    requires { IsFitting (core_of session.now) }
    ensures { result ≡ votes_there (core_of session.now) }
{
    if is_any_missing(session) {
        session.updater.votes().0
    } else {
        session.descriptor.total_votes()
    }
}

/// Whether the members that aren't missing have too few votes to write.
pub fn is_lost(session: &Session) -> bool
    requires { IsFitting (core_of session.now) }
    ensures { result ≡ is_lost (core_of session.now) }
{
    !session.descriptor.enough_to_write(votes_there(session))
}

/// Whether some buffer isn't out.
pub fn has_buffer(session: &Session) -> bool
    ensures { result ≡ has_buffer (core_of session.now) }
{
    session.pool.has_inside()
}

/// The write of the copy that is open, where it has read a track group.
pub fn copy_write(session: &Session) -> Option<Event>
    ensures { result ≡ copy_write (core_of session.now) }
{
    match &session.copy {
        Some(copy) if is_running(copy) && matches!(copy.step, Step::Read { .. }) => {
            Some(Event::WriteCopy)
        }
        _ => None,
    }
}
