//! A number of turns.
ghost use Rattle.std.specs.Prelude.{◌≡◌};
ghost use Rattle.lvm_session.specs.declared.open.Power.TheVariants as power;
ghost use Rattle.lvm_driver.specs.passed.Going.{RunsOn};
ghost use Rattle.lvm_session.specs.State.{state_of};
ghost use Rattle.lvm_keeps_events.specs.Losing.{LosesVotesByFaults};
ghost use Rattle.lvm_ranges.specs.Keeping.{KeepsTable};
ghost use Rattle.lvm_ranges.specs.Stepping.{SteppingEnds};

use lvm_disk::Shelf;
use lvm_driver::Driver;
use lvm_session::Turned;

/// Makes so many turns, and fewer where one doesn't move, which is then the last. Answers how many have moved, and
/// what the last one answered.
pub fn step<S: Shelf>(driver: &mut Driver<S>, turns: u32) -> (u32, Turned)
    requires unstuck { driver.old.1.power ≡ power.Stuck → ⊥ }
    ensures ends { SteppingEnds turns (state_of S.device driver.old) (state_of S.device driver.new) result.0 result.1 }
    ensures table { KeepsTable driver.old.1 driver.new.1 }
    ensures runs { RunsOn (state_of S.device driver.old) (state_of S.device driver.new) }
    // The votes go by faults alone.
    ensures votes { LosesVotesByFaults (state_of S.device driver.old) (state_of S.device driver.new) }
{
    for moved in 0..turns {
        driver.is_sound();
        match driver.turn() {
            Turned::Moved => {}
            how => return (moved, how),
        }
    }
    (turns, Turned::Moved)
}
