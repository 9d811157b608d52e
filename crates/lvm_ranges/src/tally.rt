//! What was made of the copies that were passed.
ghost use Rattle.std.specs.Prelude.{◌≡◌};
ghost use Rattle.lvm_ranges.specs.Syncing.{with_passed};

use crate::copies::Passed;
use crate::fault::SyncFault;

/// How many copies were made fresh, and the first thing by which one stayed stale.
#[derive(Clone, Copy)]
pub struct Tally {
    pub made: u32,
    pub fault: Option<SyncFault>,
}

impl Tally {
    /// Adds a copy that was passed so.
    pub fn add(&mut self, how: Passed)
        ensures { self.new ≡ with_passed self.old how }
    {
        match how {
            Passed::Fresh => {}
            Passed::Made => self.made = self.made.saturating_add(1),
            Passed::Failed(why) => {
                if self.fault.is_none() {
                    self.fault = Some(why);
                }
            }
        }
    }
}
