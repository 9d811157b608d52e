//! The transfers that are out are ended.
ghost use Rattle.std.specs.Prelude.{◌<◌, ◌≤◌, length};
ghost use Rattle.lvm_session.specs.Sound.{HasPower};
ghost use Rattle.lvm_write.specs.Parts.{Spends};
ghost use Rattle.lvm_quiesce.specs.Ends.{OneGives, QuiesceCosts, QuiesceGives};

use lvm_disk::{Reaped, Shelf};
use lvm_transfer::Patience;

/// How the transfers that were out ended.
#[derive(Clone, Copy)]
pub enum Quiesced {
    /// All of them, well or not. Their buffers are let go.
    Ended,
    /// The power was cut, and is off.
    Dark,
    /// Nothing was heard of those that are still out until the patience had run out.
    Stuck,
}

/// Ends the transfers that are out, in whichever order the shelf does, and starts none.
pub fn quiesce<S: Shelf>(shelf: &mut S, patience: &mut Patience) -> Quiesced
    requires { HasPower (S.device shelf.old) }
    ensures gives { QuiesceGives patience.old.left (S.device shelf.old) (S.device shelf.new) result }
    // Each answer that nothing has ended costs one of the patience.
    ensures costs { QuiesceCosts patience.old.left patience.new.left (S.device shelf.old) (S.device shelf.new) result }
    ensures spends { Spends patience.old.left patience.new.left (S.device shelf.old) (S.device shelf.new) }
{
    while shelf.flights() > 0 {
        if patience.left == 0 {
            return Quiesced::Stuck;
        }
        if !end_one(shelf, patience) {
            return Quiesced::Dark;
        }
    }
    Quiesced::Ended
}

// Ends one transfer, where one has come to its end, and waits else. False where the power was cut.
fn end_one<S: Shelf>(shelf: &mut S, patience: &mut Patience) -> bool
    requires lit { HasPower (S.device shelf.old) }
    requires out { 0 < length (S.device shelf.old).flights }
    requires some { 1 ≤ patience.old.left }
    ensures { OneGives patience.old.left patience.new.left (S.device shelf.old) (S.device shelf.new) result }
{
    match shelf.reap() {
        Reaped::Empty => {
            patience.left -= 1;
            true
        }
        Reaped::Done { ticket: _, buf: _ } => true,
        Reaped::Failed { ticket: _, buf: _ } => true,
        Reaped::Dark { freed: _ } => false,
    }
}
