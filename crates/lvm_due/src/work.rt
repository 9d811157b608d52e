//! All the work that is left.
ghost use Rattle.std.specs.Prelude.{◌≡◌, ◌+◌, count_by, length};
ghost use Rattle.lvm_session.specs.declared.open.Power.TheVariants as power;
ghost use Rattle.lvm_session.specs.Fields.{core_of};
ghost use Rattle.lvm_session.specs.Judging.{is_waiting};
ghost use Rattle.lvm_session.specs.Left.{left_by, left_of, work_left};
ghost use Rattle.lvm_session.specs.Sound.{IsGoing};

use crate::below::is_waiting;
use crate::copy::copy_left;
use crate::requests::requests_left;
use crate::starts::is_lost;
use crate::work_left_status::{members_left, status_left};
use lvm_session::{Power, Session};

// While the votes are there.
fn work_left(session: &Session) -> u64
    requires { IsGoing (core_of session.now) }
    ensures { result ≡ work_left (core_of session.now) }
{
    session.flying.len() as u64
        + 257 * members_left(session)
        + status_left(session)
        + requests_left(session)
        + copy_left(session)
}

// Once they are lost: transfers end, and requests land.
fn lost_left(session: &Session) -> u64
    ensures { result ≡ length session.now.flying.items + count_by is_waiting session.now.requests.items }
{
    let mut left = session.flying.len() as u64;
    for open in &session.requests {
        if is_waiting(open) {
            left += 1;
        }
    }
    left
}

fn left_on(session: &Session) -> u64
    requires { IsGoing (core_of session.now) }
    ensures { result ≡ left_by power.On (core_of session.now) }
{
    if is_lost(session) {
        lost_left(session)
    } else {
        work_left(session)
    }
}

/// How much work is left in a session: each event of a turn leaves less, and nothing is left once it is over.
pub fn left(session: &Session) -> u64
    requires { session.now.power ≡ power.On → IsGoing (core_of session.now) }
    ensures { result ≡ left_of (core_of session.now) }
{
    match session.power {
        Power::On => left_on(session),
        Power::Off | Power::Dark | Power::Stuck => 0,
    }
}
