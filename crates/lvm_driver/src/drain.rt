//! Turns until nothing may be made.
ghost use Rattle.std.specs.Prelude.{◌≡◌, ◌≤◌, ◌-◌};
ghost use Rattle.lvm_disk.specs.Counts.{RoseBy};
ghost use Rattle.lvm_disk.specs.Paths.{Path};
ghost use Rattle.lvm_num.specs.Votes.{total_votes};
ghost use Rattle.lvm_session.specs.declared.open.Power.TheVariants as power;
ghost use Rattle.lvm_session.specs.State.{votes_there, state_of};
ghost use Rattle.lvm_core.specs.declared.fault.CommitFault.TheVariants as fault;
ghost use Rattle.lvm_going.specs.Going.{RunsOn};
ghost use Rattle.lvm_driver.specs.Drains.{DrainCosts, DrainEnds, IsAny, IsTurn};

use crate::driver::Driver;
use lvm_core::CommitFault;
use lvm_disk::Shelf;
use lvm_session::Turned;
use lvm_transfer::Patience;

impl<S: Shelf> Driver<S> {
    /// Makes turns until no event may be made and no transfer is out.
    ///
    /// # Errors
    ///
    /// Where the session is over, or was (`Dark`, `WentOff`), and where the patience has run out (`Stuck`). No other.
    pub fn drain(&mut self, patience: &mut Patience) -> Result<(), CommitFault>
        requires unstuck { self.old.1.power ≡ power.Stuck → ⊥ }
        ensures turns { Path IsTurn IsAny (state_of S.device self.old) (state_of S.device self.new) }
        ensures ends { DrainEnds patience.new.left (state_of S.device self.new) result }
        ensures runs { RunsOn (state_of S.device self.old) (state_of S.device self.new) }
        ensures patience { patience.new.left ≤ patience.old.left }
        // Each turn that waits costs one of the patience.
        ensures costs { DrainCosts patience.old.left patience.new.left (state_of S.device self.old) (state_of S.device self.new) result }
        ensures waited { RoseBy (patience.old.left - patience.new.left) (S.device self.old.0).counts.waits (S.device self.new.0).counts.waits }
    {
        while patience.left > 0 {
            match self.turn() {
                Turned::Moved => {}
                Turned::Idle => {
                    if self.flights() == 0 {
                        return Ok(());
                    }
                    patience.left -= 1;
                }
                Turned::Dark => return Err(CommitFault::Dark),
                Turned::Off => return Err(self.went_off()),
            }
        }
        Err(CommitFault::Stuck)
    }

    fn went_off(&self) -> CommitFault
        ensures { result ≡ fault.WentOff (votes_there self.now.1) (total_votes self.now.1.descriptor) }
    {
        let (have, total) = self.votes();
        CommitFault::WentOff { have, total }
    }
}
