//! Laws of the end of a session that is tied, and of orders to its shelf. Each call does nothing: its contract is the law.
ghost use Rattle.lvm_tie.specs.Over.{OffGoesOn, DarkGoesOn, OrderGoesOn, OrderTies, TakeGoesOn};

/// A span goes on over the end of a good session: where its votes are lost, and where the power is off.
pub fn sessions_end()
    ensures off { OffGoesOn }
    ensures dark { DarkGoesOn }
{}

/// So it does over an order to its shelf, which leaves the session good, if it is on then.
pub fn orders_tie()
    ensures goes_on { OrderGoesOn }
    ensures ties { OrderTies }
{}

/// A span goes on over an answer that is taken, whether the session is on or over.
pub fn takes_go_on()
    ensures { TakeGoesOn }
{}
