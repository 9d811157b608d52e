//! What the request at a place of the table does next.
ghost use Rattle.std.specs.Prelude.{◌≡◌, ◌<◌, length, slice_get, Some};
ghost use Rattle.lvm_due.specs.passed.Session.{Open, core_of, next_for, IsGoing};
ghost use Rattle.lvm_due.specs.Due.{NoneFails};

use crate::below::Session;
use crate::facts::next_of;
use crate::pending::is_waiting;
use lvm_path::Next;

/// What the request at a place of the table, from 0, does next; one that has landed waits. Failing writes aren't looked
/// for where it is known that none is.
pub fn next_at(session: &Session, place: usize, unfailing: bool) -> Next
    requires going { IsGoing (core_of session.now) }
    requires unfailing { NoneFails (core_of session.now) unfailing }
    requires there { place < length session.now.requests.items }
    ensures { (o : Open) → slice_get session.now.requests.items place ≡ Some o → result ≡ next_for (core_of session.now) o }
{
    let open = &session.requests[place];
    if !is_waiting(open) {
        return Next::Wait;
    }
    next_of(session, open, unfailing)
}
