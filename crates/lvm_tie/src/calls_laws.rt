//! Laws of the calls by which a copy is opened, begins to move and is closed: each leaves a tied session tied. Each call does nothing: its
//! contract is the law.
ghost use Rattle.lvm_tie.specs.Calls.{CloseTies, OpenMoveTies, OpenTies};

/// A copy that is opened, or isn't, leaves a tied session tied.
pub fn open_ties()
    ensures { OpenTies }
{}

/// So does one that begins to move, or doesn't.
pub fn open_move_ties()
    ensures { OpenMoveTies }
{}

/// So does one that is closed, also a move.
pub fn close_ties()
    ensures { CloseTies }
{}
