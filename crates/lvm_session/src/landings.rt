//! All open requests land.
ghost use Rattle.std.specs.Prelude.{◌≡◌, map};
ghost use Rattle.lvm_session.specs.Bringing.{with_back};
ghost use Rattle.lvm_session.specs.Judging.{is_waiting};
ghost use Rattle.lvm_session.specs.Dark.{AreTold, ended_as, with_hands, with_landings};
ghost use Rattle.lvm_session.specs.Hands.{AreInHand, IsOutIf, back_if};

use crate::below::{History, Pbuf, Pool};
use crate::open::Open;
use lvm_vol::Outcome;

// Whether it hasn't landed.
fn is_waiting(open: &Open) -> bool
    ensures { result ≡ is_waiting open.now }
{
    open.landed.is_none()
}

/// Enters of each request that hasn't landed that it lands so.
pub fn land_all(history: &mut History, requests: &[Open], how: Outcome)
    requires { AreTold history.old.facts requests.now }
    ensures { history.new ≡ with_landings how history.old requests.now }
{
    for open in requests {
        if is_waiting(open) {
            history.land(open.request.id, how, open.request.has_started());
        }
    }
}

/// Takes a buffer back, where there is one.
pub fn give_back(pool: &mut Pool, buf: Option<Pbuf>)
    requires { IsOutIf pool.old buf }
    ensures { pool.new ≡ with_back pool.old buf }
{
    if let Some(buf) = buf {
        pool.give(buf);
    }
}

// It lands so, unless it has landed; what it had in hand is handed out.
fn end_open(open: &mut Open, how: Outcome) -> Option<Pbuf>
    ensures open { open.new ≡ ended_as how open.old }
    ensures hand { result ≡ back_if (is_waiting open.old) open.old.got }
{
    if open.landed.is_some() {
        return None;
    }
    open.request.landed();
    open.landed = Some(how);
    open.got.take()
}

/// Each that hasn't landed lands so, and the buffers that they have in hand go back.
pub fn end_all(requests: &mut [Open], pool: &mut Pool, how: Outcome)
    requires { AreInHand pool.old requests.old }
    ensures requests { requests.new ≡ map (ended_as how) requests.old }
    ensures pool { pool.new ≡ with_hands pool.old requests.old }
{
    for open in requests.iter_mut() {
        let hand = end_open(open, how);
        give_back(pool, hand);
    }
}
