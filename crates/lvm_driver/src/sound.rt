//! What holds of a driver at every moment.
ghost use Rattle.lvm_session.specs.Sound.{IsSound};
ghost use Rattle.lvm_session.specs.State.{state_of};

use crate::Driver;
use lvm_disk::Shelf;

impl<S: Shelf> Driver<S> {
    /// Its session is sound.
    pub fn is_sound(&self)
        ensures { IsSound (state_of S.device self.now) }
    {
        let _ = self.power();
    }
}
