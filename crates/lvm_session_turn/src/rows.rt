//! A transfer of a session ends.
ghost use Rattle.std.specs.Prelude.{◌≡◌, ◌⊎◌, ◌<◌, ◌==◌, false, true, Some, length, position, slice_get};
ghost use Rattle.std.specs.List.{list_any};
ghost use Rattle.lvm_session.specs.declared.flown.Flown.{Flown};
ghost use Rattle.lvm_session.specs.Fields.{core_of};
ghost use Rattle.lvm_session.specs.Owners.{AreRows};
ghost use Rattle.lvm_session_turn.specs.Reaping.{IsReapedSo, ReapsTo};

use lvm_disk::{Reaped, Shelf};
use lvm_num::Pbuf;
use lvm_session::{Flown, Session};

/// What comes back of the transfers that are out.
#[derive(Drop)]
pub enum Back {
    /// None has ended.
    Empty,
    /// The one of this row, at this place of the list, has ended well or badly.
    Ended {
        at: usize,
        row: Flown,
        ok: bool,
        buf: Pbuf,
    },
    /// The power is off.
    Dark,
}

fn place_of(flying: &[Flown], ticket: u64) -> Option<usize>
    ensures { result ≡ position (λ (row : Flown). row.ticket == ticket) flying.now }
{
    flying.iter().position(|row| row.ticket == ticket)
}

// The row of the transfer with this ticket, and its place in the list.
fn row_of(session: &Session, ticket: u64) -> (usize, Flown)
    requires { list_any (λ (row : Flown). row.ticket == ticket) session.now.flying.items ≡ true }
    ensures there { slice_get session.now.flying.items result.0 ≡ Some result.1 }
    ensures own { result.1.ticket ≡ ticket }
{
    match place_of(&session.flying, ticket) {
        Some(at) => (at, session.flying[at]),
        None => unreachable!(),
    }
}

// With its row.
fn ended(session: &Session, ticket: u64, ok: bool, buf: Pbuf) -> Back
    requires { list_any (λ (row : Flown). row.ticket == ticket) session.now.flying.items ≡ true }
    ensures { IsReapedSo session.now.flying.items ticket ok buf result }
{
    let (at, row) = row_of(session, ticket);
    Back::Ended { at, row, ok, buf }
}

/// Ends one of the transfers that are out, where one has come to its end, and finds its row.
pub fn reap_row<S: Shelf>(session: &Session, shelf: &mut S) -> Back
    requires rows { AreRows (core_of session.now) session.now.flying.items (S.device shelf.old).flights }
    requires out { (0 < length (S.device shelf.old).flights) ⊎ ((S.device shelf.old).power ≡ false) }
    ensures { ReapsTo (core_of session.now) (S.device shelf.old) (S.device shelf.new) result }
{
    match shelf.reap() {
        Reaped::Empty => Back::Empty,
        Reaped::Done { ticket, buf } => ended(session, ticket, true, buf),
        Reaped::Failed { ticket, buf } => ended(session, ticket, false, buf),
        Reaped::Dark { .. } => Back::Dark,
    }
}
