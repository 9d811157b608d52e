//! The first transfer that may be started.
ghost use Rattle.std.specs.Prelude.{◌≡◌};
ghost use Rattle.lvm_session.specs.Fields.{core_of};
ghost use Rattle.lvm_session.specs.Rooms.{HasRooms};
ghost use Rattle.lvm_session.specs.Enabled.{first_of, parts_to_start};
ghost use Rattle.lvm_session.specs.Sound.{IsGoing};
ghost use Rattle.lvm_due.specs.Due.{IsDue};
ghost use Rattle.lvm_due.specs.Plain.{data_or_copy, first_started};

use crate::due::Due;
use crate::firsts::first_data;
use crate::notes::first_note;
use crate::source::copy_read;
use crate::starts::{copy_write, has_buffer};
use crate::status::status_start;
use lvm_session::{Event, Session};

// Where a buffer is there: a write of the status, a note, a transfer of a request, or one of the copy.
fn first_with_buffer(session: &Session, due: &mut Due) -> Option<Event>
    requires going { IsGoing (core_of session.now) }
    requires due { IsDue (core_of session.now) due.old }
    ensures first { result ≡ first_started (core_of session.now) }
    ensures due { IsDue (core_of session.now) due.new }
{
    let status = status_start(session);
    if status.is_some() {
        return status;
    }
    let note = first_note(session, &mut due.note);
    if note.is_some() {
        return note;
    }
    first_of_data(session, due)
}

fn first_of_data(session: &Session, due: &mut Due) -> Option<Event>
    requires going { IsGoing (core_of session.now) }
    requires due { IsDue (core_of session.now) due.old }
    ensures first { result ≡ data_or_copy (core_of session.now) }
    ensures due { IsDue (core_of session.now) due.new }
{
    let data = first_data(session, due.unfailing, &mut due.data);
    if data.is_some() {
        return data;
    }
    let read = copy_read(session);
    if read.is_some() {
        return read;
    }
    copy_write(session)
}

/// The first transfer that may be started: a write of the status, a note, a transfer of a request, a read of the
/// copy that is open, or its write, which alone needs no buffer of the pool.
pub fn first_start(session: &Session, due: &mut Due) -> Option<Event>
    requires going { IsGoing (core_of session.now) }
    requires rooms { HasRooms session.now }
    requires due { IsDue (core_of session.now) due.old }
    ensures first { result ≡ first_of parts_to_start (core_of session.now) }
    ensures due { IsDue (core_of session.now) due.new }
{
    if has_buffer(session) {
        first_with_buffer(session, due)
    } else {
        copy_write(session)
    }
}
