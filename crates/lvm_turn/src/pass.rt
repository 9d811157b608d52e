//! What a thread enters with.

use atomic_table::Badge;
use std::marker::Model;

/// What a pass knows, which contracts see as a record of its clients, the history as it saw it last and
/// what never changes. No value of it is made.
#[derive(Drop)]
pub struct View {}

impl Model for View {
    ghost use Rattle.lvm_turn.specs.Views.{View as Known, nobody};

    ghost Value = { Known };

    ghost view = { λ _. nobody };
}

/// The right to take the turn, for some clients.
///
/// A pass that is dropped takes its clients with it: nobody closes the turn then, and where it was
/// inside nobody enters any more.
#[derive(Drop)]
pub struct Pass {
    pub(crate) badge: Badge<View>,
    // What it read or wrote last in word 0, which is even while the turn is free.
    pub(crate) number: u64,
    // How many entries it has seen.
    pub(crate) length: u64,
}

impl Model for Pass {
    ghost use Rattle.lvm_turn.specs.Views.{Standing};

    ghost Value = { Standing };

    ghost use Rattle.lvm_turn.specs.Passes.{standing_of, IsPass};

    ghost view = { standing_of };

    ghost invariant = { IsPass };
}
