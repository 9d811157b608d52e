//! A move is committed on the parts of a driver.
ghost use Rattle.std.specs.Prelude.{◌≡◌};
ghost use Rattle.lvm_session.specs.Fields.{core_of};
ghost use Rattle.lvm_session.specs.Rooms.{HasRooms, SameRooms};
ghost use Rattle.lvm_session.specs.State.{state};
ghost use Rattle.lvm_going.specs.Going.{CommitsOpenMove, closed_after};
ghost use Rattle.lvm_driver.specs.Commits.{IsReadyMove};

use lvm_core::{CommitFault, Prepared};
use lvm_disk::Shelf;
use lvm_move::commit_move;
use lvm_session::{Power, Session};
use lvm_transfer::Patience;

// The copy is closed, and the session is stuck where a transfer isn't heard of.
fn close_after(session: &mut Session, answer: &Result<(), CommitFault>)
    ensures is { core_of session.new ≡ closed_after answer.now (core_of session.old) }
    ensures rooms { SameRooms session.old session.new }
{
    session.copy = None;
    if let Err(CommitFault::Stuck) = answer {
        session.power = Power::Stuck;
    }
}

/// Commits the descriptor of a move that is done, and closes its copy.
///
/// # Errors
///
/// Those of `Driver::commit_move`.
pub fn commit_ready<S: Shelf>(
    session: &mut Session,
    shelf: &mut S,
    next: Prepared,
    patience: &mut Patience,
) -> Result<(), CommitFault>
    requires ready { IsReadyMove (state (S.device shelf.old) (core_of session.old)) next }
    requires rooms { HasRooms session.old }
    ensures commits { CommitsOpenMove patience.old.left patience.new.left (state (S.device shelf.old) (core_of session.old)) (state (S.device shelf.new) (core_of session.new)) result }
    ensures rooms { SameRooms session.old session.new }
{
    let (next, bytes) = next.into_parts();
    let answer = commit_move(session, shelf, next, bytes.as_slice(), patience);
    close_after(session, &answer);
    answer
}
