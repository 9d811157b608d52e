//! Laws of the moment of a session. Each call does nothing: its contract is the law.
ghost use Rattle.lvm_tie.specs.Stamps.{
  ArrangeLeavesBefore,
  CallsStay,
  TurnIsEarlier,
  TurnKeepsEpoch,
  TurnLeavesBefore,
};

/// All that a crash may leave stays from before each moment after the session's own, over each turn and each order.
pub fn crashes_leave_before()
    ensures turn { TurnLeavesBefore }
    ensures arrange { ArrangeLeavesBefore }
{}

/// Its stamps stay of one epoch, and what is later than its history stays so.
pub fn moments_stay()
    ensures epoch { TurnKeepsEpoch }
    ensures later { TurnIsEarlier }
    ensures calls { CallsStay }
{}
