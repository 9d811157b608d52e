//! A driver for a lock to lend.
use crate::driver::Driver;
use lvm_disk::Shelf;
use lvm_vol::{Past, Shown};
use std::snapshot::Snapshot;

/// A driver that a lock lends to one thread after another, with its shelf as the run found it, which contracts alone
/// see.
#[derive(Drop)]
pub struct Lent<S: Shelf> {
    pub driver: Driver<S>,
    pub first: Snapshot<S>,
}

impl<S: Shelf> Past for Lent<S> {
    ghost use Rattle.lvm_driver.specs.Showing.{image_of};

    ghost past = { λ d. image_of (S.device d.first.value) };
}

impl<S: Shelf> Shown for Lent<S> {
    ghost use Rattle.lvm_session.specs.Sound.{IsSound};
    ghost use Rattle.lvm_session.specs.State.{state_of};
    ghost use Rattle.lvm_driver.specs.Showing.{told_by};

    ghost tells = { λ d. told_by (state_of S.device d.driver) };

    ghost always = { λ d. IsSound (state_of S.device d.driver) };

    fn shown(&self) -> u64 {
        u64::from(self.driver.history().len())
    }
}
