//! The shelf of a session is given an order.
ghost use Rattle.std.specs.Prelude.{◌≡◌};
ghost use Rattle.lvm_session.specs.Fields.{core_of};
ghost use Rattle.lvm_session.specs.Rooms.{SameRooms};
ghost use Rattle.lvm_session.specs.Dark.{after_arrange, is_cut};
ghost use Rattle.lvm_session.specs.Hands.{MayEnd};

use crate::ends::darken;
use crate::session::Session;
use lvm_disk::Arrange;

// Whether the order cuts the power.
fn is_cut(what: Arrange) -> bool
    ensures { result ≡ is_cut what }
{
    matches!(what, Arrange::Cut(_))
}

/// The shelf was told to arrange something, and has done so or takes no such orders.
pub fn arranged(session: &mut Session, what: Arrange, done: bool)
    requires { MayEnd (core_of session.old) }
    ensures core { core_of session.new ≡ after_arrange what done (core_of session.old) }
    ensures rooms { SameRooms session.old session.new }
{
    if done && is_cut(what) {
        darken(session);
    }
}
