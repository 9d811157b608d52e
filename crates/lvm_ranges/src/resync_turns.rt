//! Turns beside which copies are brought up.
ghost use Rattle.std.specs.Prelude.{◌≡◌, None};
ghost use Rattle.lvm_session.specs.declared.open.Power.TheVariants as power;
ghost use Rattle.lvm_session.specs.State.{state_of};
ghost use Rattle.lvm_ranges.specs.Turning.{GoesBeside, IsUnderWay, TurnEnds};

use crate::below::Driver;
use crate::fault::SyncFault;
use lvm_disk::Shelf;
use lvm_session::Turned;
use lvm_transfer::Patience;

/// Makes a turn of a session of which something is under way.
///
/// # Errors
///
/// Where the session is over, or was, and where the patience has run out.
pub fn make_turn<S: Shelf>(driver: &mut Driver<S>, patience: &mut Patience) -> Result<(), SyncFault>
    requires unstuck { driver.old.1.power ≡ power.Stuck → ⊥ }
    requires under_way { IsUnderWay (state_of S.device driver.old) }
    ensures ends { TurnEnds (state_of S.device driver.old) (state_of S.device driver.new) patience.old.left patience.new.left result }
    ensures beside { GoesBeside (state_of S.device driver.old) (state_of S.device driver.new) patience.old.left patience.new.left }
    ensures none { driver.old.1.copy ≡ None → driver.new.1.copy ≡ None }
{
    if patience.left == 0 {
        return Err(SyncFault::Stuck);
    }
    driver.is_sound();
    match driver.turn() {
        Turned::Moved => Ok(()),
        Turned::Idle => {
            patience.left -= 1;
            Ok(())
        }
        Turned::Dark => Err(SyncFault::Dark),
        Turned::Off => Err(SyncFault::Off),
    }
}
