//! The rule of the turn over its table, and what each kind of step tells the pass that makes it.
ghost use Rattle.lvm_turn.specs.Steps.{looked, tried, stowed, told, compared, released};
ghost use Rattle.lvm_turn.specs.Views.{without_client, with_client_alone, met, nobody};

use crate::pass::View;
use atomic_table::{Join, Play, Split, TableRule};
use lvm_vol::Shown;
use std::marker::{Brand, PhantomData};
use std::snapshot::Snapshot;

/// What a turn is opened with.
#[derive(Drop)]
pub struct Opening<V> {
    pub clients: u32,
    pub value: Snapshot<V>,
}

/// What holds between any two steps of any threads.
pub struct Ruled;

impl<V: Shown> TableRule<Option<V>, View, Opening<V>> for Ruled {
    ghost use Rattle.lvm_turn.specs.Rules.{TurnRule, fixed_of};
    ghost use Rattle.lvm_turn.specs.Views.{opener};

    ghost holds = { λ key. TurnRule V.tells V.past V.always key.clients (fixed_of V.tells V.past key.value.value) };

    ghost first = { λ key. opener key.clients (fixed_of V.tells V.past key.value.value) };
}

// Reads word 0.
pub(crate) struct Look;

impl<V: Shown> Play<Option<V>, View> for Look {
    ghost then = { looked V.tells V.past V.always };
}

// Makes word 0 odd and takes the slot, where the word is as expected.
pub(crate) struct Try;

impl<V: Shown> Play<Option<V>, View> for Try {
    ghost then = { tried V.tells V.past V.always };
}

// Sends the slot home, which the value was taken out of.
pub(crate) struct Stow;

impl<V: Shown> Play<Option<V>, View> for Stow {
    ghost then = { stowed V.tells V.past V.always };
}

// Writes the length of the history to word 1, and takes the empty slot.
pub(crate) struct Tell;

impl<V: Shown> Play<Option<V>, View> for Tell {
    ghost then = { told V.tells V.past V.always };
}

// Learns that two fronts are beginnings of one history.
pub(crate) struct Compare;

impl<V: Shown> Play<Option<V>, View> for Compare {
    ghost then = { compared V.tells V.past V.always };
}

// Makes word 0 even, and sends the slot home with the value.
pub(crate) struct Release;

impl<V: Shown> Play<Option<V>, View> for Release {
    ghost then = { released V.tells V.past V.always };
}

// The client that goes over to another pass. Each split picks it.
pub(crate) trait Chosen {
    ghost use Rattle.std.specs.Prelude.{ℕ};

    ghost client: { ℕ };
}

impl Chosen for Brand {
    ghost client = { 0 };
}

// Cuts a pass in two: the chosen client goes over to the new one.
pub(crate) struct Part<C> {
    chosen: PhantomData<C>,
}

impl<C: Chosen> Split<View> for Part<C> {
    ghost left = { without_client C.client };

    ghost right = { with_client_alone C.client };
}

// Takes another pass in, which is spent from then on.
pub(crate) struct Merge;

impl Join<View> for Merge {
    ghost both = { met };

    ghost spent = { nobody };
}
