//! A client gives an order to the shelf.
ghost use Rattle.std.specs.Prelude.{◌≡◌};
ghost use Rattle.lvm_disk.specs.Steps.{MayArrange};
ghost use Rattle.lvm_session.specs.Fields.{core_of};
ghost use Rattle.lvm_session.specs.Rooms.{SameRooms};
ghost use Rattle.lvm_session.specs.State.{state};
ghost use Rattle.lvm_session.specs.Turns.{ArrangesSession};
ghost use Rattle.lvm_session.specs.Sound.{IsSound};

use lvm_disk::{Arrange, Shelf};
use lvm_moves::below::arranged;
use lvm_session::Session;

/// The shelf is given an order: a disk fails or heals, or the power is cut, which ends the session. Answers whether
/// the shelf takes such orders; one that doesn't changes nothing.
pub fn arrange<S: Shelf>(session: &mut Session, shelf: &mut S, what: Arrange) -> bool
    requires disk { MayArrange (S.device shelf.old) what }
    requires sound { IsSound (state (S.device shelf.old) (core_of session.old)) }
    ensures gives { ArrangesSession (state (S.device shelf.old) (core_of session.old)) (state (S.device shelf.new) (core_of session.new)) what result }
    ensures rooms { SameRooms session.old session.new }
{
    let done = shelf.arrange(what);
    arranged(session, what, done);
    done
}
