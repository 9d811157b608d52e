//! The answers of a range that has landed.
ghost use Rattle.std.specs.Prelude.{◌≡◌, ◌<◌, ◌+◌, ◌-◌, Option, false};
ghost use Rattle.lvm_driver.specs.passed.Write.{Spends};
ghost use Rattle.lvm_driver.specs.passed.Going.{RunsOn, is_moving};
ghost use Rattle.lvm_session.specs.declared.open.Power.TheVariants as power;
ghost use Rattle.lvm_session.specs.State.{state_of};
ghost use Rattle.lvm_posts.specs.Posts.{AreHeld};
ghost use Rattle.lvm_posts.specs.Pieces.{IsLaidOut};
ghost use Rattle.lvm_ranges.specs.Finishing.{FinishCosts, FinishGives, TakesRange};
ghost use Rattle.lvm_ranges.specs.Keeping.{KeepsOthers};
ghost use Rattle.lvm_ranges.specs.Landing.{HavePiecesLanded};
ghost use Rattle.lvm_ranges.specs.Taking.{fault_taken};

use crate::landing::await_range;
use lvm_disk::Shelf;
use lvm_driver::Driver;
use lvm_num::SCRIPT_CLIENT;
use lvm_posts::{Asked, RangeFault, first_fault, piece_lp};
use lvm_session::Taken;
use lvm_transfer::Patience;

// How a piece in this logical partition has failed that was answered so, where the votes are so many of so many.
fn fault_taken(taken: Taken, lp: u32, have: u32, total: u32) -> Option<RangeFault>
    ensures { result ≡ fault_taken lp have total taken }
{
    match taken {
        Taken::Lost => Some(RangeFault::Lost),
        Taken::ReadFailed => Some(RangeFault::ReadFailed),
        Taken::NoFresh => Some(RangeFault::NoFresh { lp }),
        Taken::Off => Some(RangeFault::WentOff { have, total }),
        Taken::Dark => Some(RangeFault::Dark),
        Taken::Done | Taken::Got { .. } | Taken::NotYet | Taken::Unknown => None,
    }
}

/// Takes the answers of a range that has landed, in the order of its blocks.
///
/// # Errors
///
/// The first piece that didn't end well decides; all answers are taken all the same.
pub fn take_range<S: Shelf>(driver: &mut Driver<S>, asked: &Asked) -> Result<(), RangeFault>
    requires held { AreHeld driver.old.1 asked.now }
    requires landed { HavePiecesLanded asked.now (state_of S.device driver.old) }
    requires laid { IsLaidOut asked.now }
    ensures gives { TakesRange asked.now (state_of S.device driver.old) (state_of S.device driver.new) result }
    ensures others { KeepsOthers asked.now driver.old.1 driver.new.1 }
    ensures runs { RunsOn (state_of S.device driver.old) (state_of S.device driver.new) }
{
    driver.is_sound();
    let (have, total) = driver.votes();
    let mut fault = None;
    for piece in 0..asked.pieces {
        driver.is_sound();
        let taken = driver.take(SCRIPT_CLIENT, asked.first + u64::from(piece));
        let failed = fault_taken(taken, piece_lp(asked, piece), have, total);
        fault = first_fault(fault, failed);
    }
    match fault {
        None => Ok(()),
        Some(why) => Err(why),
    }
}

/// Makes turns until each piece of the range has landed, and no turn more; and takes the answers, in the order of its
/// blocks.
///
/// # Errors
///
/// The first piece that didn't end well decides; all answers are taken all the same. `Stuck` where the patience has
/// run out before all have landed, and then none is taken.
pub fn finish_range<S: Shelf>(
    driver: &mut Driver<S>,
    asked: &Asked,
    patience: &mut Patience,
) -> Result<(), RangeFault>
    requires unstuck { driver.old.1.power ≡ power.Stuck → ⊥ }
    requires unmoved { is_moving driver.old.1 ≡ false }
    requires held { AreHeld driver.old.1 asked.now }
    requires laid { IsLaidOut asked.now }
    ensures gives { FinishGives asked.now patience.new.left (state_of S.device driver.old) (state_of S.device driver.new) result }
    ensures others { KeepsOthers asked.now driver.old.1 driver.new.1 }
    ensures runs { RunsOn (state_of S.device driver.old) (state_of S.device driver.new) }
    ensures spends { Spends patience.old.left patience.new.left (S.device driver.old.0) (S.device driver.new.0) }
    // Each turn that waits costs one of the patience.
    ensures costs { FinishCosts asked.now patience.old.left patience.new.left (state_of S.device driver.old) (state_of S.device driver.new) result }
{
    match await_range(driver, asked, patience) {
        Ok(()) => take_range(driver, asked),
        Err(_) => Err(RangeFault::Stuck),
    }
}
