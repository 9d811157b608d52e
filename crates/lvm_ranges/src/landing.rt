//! Turns until a range has landed.
ghost use Rattle.std.specs.Prelude.{◌≡◌, ◌<◌, ◌+◌, ◌-◌, true, false};
ghost use Rattle.lvm_disk.specs.Paths.{Path};
ghost use Rattle.lvm_driver.specs.passed.Write.{Spends};
ghost use Rattle.lvm_driver.specs.passed.Going.{is_moving};
ghost use Rattle.lvm_session.specs.declared.open.Power.TheVariants as power;
ghost use Rattle.lvm_session.specs.State.{state_of};
ghost use Rattle.lvm_driver.specs.Drains.{IsAny};
ghost use Rattle.lvm_posts.specs.Pieces.{IsLaidOut};
ghost use Rattle.lvm_ranges.specs.Landing.{AwaitCosts, AwaitEnds, HavePiecesLanded, IsUnfinished, TurnsFor, TurnsLeave};

use lvm_disk::Shelf;
use lvm_driver::Driver;
use lvm_posts::Asked;
use lvm_session::Turned;
use lvm_transfer::Patience;

/// Nothing was heard of the transfers that are out until the patience had run out.
#[derive(Clone, Copy, Debug, PartialEq, Eq)]
pub struct Stuck;

// Whether some piece of the range hasn't landed.
fn is_unfinished<S: Shelf>(driver: &Driver<S>, asked: &Asked) -> bool
    requires laid { IsLaidOut asked.now }
    ensures open { result ≡ true → IsUnfinished asked.now (state_of S.device driver.now) }
    ensures landed { result ≡ false → HavePiecesLanded asked.now (state_of S.device driver.now) }
{
    for piece in 0..asked.pieces {
        if driver.is_open(asked.first + u64::from(piece)) {
            return true;
        }
    }
    false
}

/// Makes turns until each piece of the range has landed, and no turn more. Where the session is over, each has. No copy
/// moves, for which a request might wait.
///
/// # Errors
///
/// Where the patience has run out before.
pub fn await_range<S: Shelf>(
    driver: &mut Driver<S>,
    asked: &Asked,
    patience: &mut Patience,
) -> Result<(), Stuck>
    requires unstuck { driver.old.1.power ≡ power.Stuck → ⊥ }
    requires unmoved { is_moving driver.old.1 ≡ false }
    requires laid { IsLaidOut asked.now }
    ensures turns { Path (TurnsFor asked.now) IsAny (state_of S.device driver.old) (state_of S.device driver.new) }
    ensures ends { AwaitEnds asked.now patience.new.left (state_of S.device driver.new) result }
    // The votes go by faults alone.
    ensures leaves { TurnsLeave (state_of S.device driver.old) (state_of S.device driver.new) }
    ensures spends { Spends patience.old.left patience.new.left (S.device driver.old.0) (S.device driver.new.0) }
    // Each turn that waits costs one of the patience.
    ensures costs { AwaitCosts asked.now patience.old.left patience.new.left (state_of S.device driver.old) (state_of S.device driver.new) result }
{
    while is_unfinished(driver, asked) {
        if patience.left == 0 {
            return Err(Stuck);
        }
        driver.is_sound();
        match driver.turn() {
            Turned::Moved => {}
            Turned::Idle => patience.left -= 1,
            Turned::Dark | Turned::Off => return Ok(()),
        }
    }
    Ok(())
}
