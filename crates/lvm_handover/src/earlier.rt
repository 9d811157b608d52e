//! The answers of a range whose session is gone, taken while another one is on.
ghost use Rattle.std.specs.Prelude.{◌≡◌, false};
ghost use Rattle.lvm_session.specs.Fields.{core_of};
ghost use Rattle.lvm_session.specs.Judging.{is_moving};
ghost use Rattle.lvm_session.specs.Rooms.{HasRooms};
ghost use Rattle.lvm_ranges.specs.passed.Posts.{RangeEnds, IsLaidOut, AreAnswered};
ghost use Rattle.lvm_handover.specs.Earlier.{AreGone, with_taken};

use lvm_disk::Shelf;
use lvm_ranges::below::driver::Driver;
use lvm_ranges::below::{Asked, RangeFault, take_closed};
use lvm_session::Session;

// Takes them from the history of the session that is on.
fn take_in(
    session: Session,
    asked: &Asked,
    have: u32,
    total: u32,
) -> (Session, Result<(), RangeFault>)
    requires answered { AreAnswered (core_of session).history.facts asked.now }
    requires laid { IsLaidOut asked.now }
    ensures core { core_of result.0 ≡ with_taken asked.now (core_of session) }
    ensures rooms { HasRooms session → HasRooms result.0 }
    ensures ends { RangeEnds (core_of result.0).history.facts asked.now have total result.1 }
{
    let mut session = session;
    let answer = take_closed(&mut session.history, asked, have, total);
    (session, answer)
}

/// Takes the answers of a range whose session is gone, as the history tells of them, in the order of its blocks, while
/// another session is on, of which no copy moves. The votes are those as the range's own session ended.
///
/// # Errors
///
/// The first piece that didn't end well decides; all answers are taken all the same. The session goes on beside it.
pub fn take_earlier<S: Shelf>(
    driver: Driver<S>,
    asked: &Asked,
    have: u32,
    total: u32,
) -> (Driver<S>, Result<(), RangeFault>)
    requires unmoved { is_moving driver.1 ≡ false }
    requires answered { AreAnswered driver.1.history.facts asked.now }
    requires gone { AreGone driver.1 asked.now }
    requires laid { IsLaidOut asked.now }
    ensures shelf { result.0.0 ≡ driver.0 }
    ensures core { result.0.1 ≡ with_taken asked.now driver.1 }
    ensures ends { RangeEnds result.0.1.history.facts asked.now have total result.1 }
{
    let (shelf, session) = driver.into_parts();
    let (session, answer) = take_in(session, asked, have, total);
    (Driver::from_parts(shelf, session), answer)
}
