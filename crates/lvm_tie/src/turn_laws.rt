//! Laws of a good session's turns, and of the calls of its clients. Each call does nothing: its contract is the law.
ghost use Rattle.lvm_tie.specs.GoingOn.{AnswerGoesOn, ArrangeGoesOn, CloseGoesOn, OpenGoesOn, OpenMoveGoesOn, SubmitGoesOn, TurnGoesOn};

/// A good session goes on over the calls of its clients: a request that is submitted, an answer that is taken, a copy
/// that is opened, also to move, or closed, and an order to the shelf.
pub fn calls_go_on()
    ensures submit { SubmitGoesOn }
    ensures answer { AnswerGoesOn }
    ensures opens { OpenGoesOn }
    ensures moves { OpenMoveGoesOn }
    ensures closes { CloseGoesOn }
    ensures order { ArrangeGoesOn }
{}

/// So it does over each turn: whichever event is made or transfer ends, and where the session is over by it.
pub fn turns_go_on()
    ensures { TurnGoesOn }
{}
