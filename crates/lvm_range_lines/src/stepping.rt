//! The line that makes turns.
ghost use Rattle.std.specs.Prelude.{◌≡◌, ℕ};
ghost use Rattle.std.specs.Global.{Vec};
ghost use Rattle.lvm_session.specs.declared.open.Power.TheVariants as power;
ghost use Rattle.lvm_session.specs.Sound.{IsSound};
ghost use Rattle.lvm_session.specs.State.{state_of};
ghost use Rattle.lvm_group_lines.specs.Stages.{IsBetweenStage, IsFittingStage};
ghost use Rattle.lvm_range_lines.specs.Leaving.{EndsInPlace, EndsInSession};
ghost use Rattle.lvm_range_lines.specs.Stepping.{StepDoes, step_reply};

use lvm_disk::Shelf;
use lvm_group_lines::below::driver::Driver;
use lvm_group_lines::below::ranges::step;
use lvm_group_lines::{Holder, Refusal, Reply, Stage};
use lvm_session::Turned;

// The reply where so many turns have moved, and the last one answered so.
fn step_reply<S: Shelf>(driver: &Driver<S>, moved: u32, how: Turned) -> Reply
    ensures reply { result ≡ step_reply moved (state_of S.device driver.now) how }
    ensures sound { IsSound (state_of S.device driver.now) }
{
    let _ = driver.power();
    match how {
        Turned::Moved | Turned::Idle => Reply::Stepped(moved),
        Turned::Dark => Reply::Refused(Refusal::Dark),
        Turned::Off => {
            let (have, total) = driver.votes();
            Reply::Refused(Refusal::WentOff { have, total })
        }
    }
}

// Makes turns of a session that is on.
fn step_on<S: Shelf>(driver: &mut Driver<S>, turns: u32) -> Reply
    requires on { driver.old.1.power ≡ power.On }
    ensures { (bytes : Vec ℕ) → EndsInSession S.device (StepDoes turns) driver.old bytes driver.new bytes result }
{
    let (moved, how) = step(driver, turns);
    step_reply(driver, moved, how)
}

/// Makes so many turns, and fewer where one doesn't move, which is then the last. The stage isn't given away for it:
/// `Stage::left` makes of it what stands behind the line.
pub fn do_step<S: Shelf>(stage: &mut Stage<S>, turns: u32) -> Reply
    requires fits { IsFittingStage stage.old }
    requires between { IsBetweenStage S.device stage.old }
    ensures { EndsInPlace S.device (StepDoes turns) stage.old stage.new result }
{
    match &mut stage.holder {
        Holder::Off {
            shelf: _,
            history: _,
        } => Reply::Refused(Refusal::NoGroup),
        Holder::Empty { driver: _ } => Reply::Stepped(0),
        Holder::Serving { driver } => step_on(driver, turns),
    }
}
