//! The turn.
ghost use Rattle.std.specs.Prelude.{◌≡◌, ◌<◌, true, false, IfOk, IfErr, IfSome, IfNone};
ghost use Rattle.lvm_vol.specs.Fronts.{IsPrefixOf};
ghost use Rattle.lvm_turn.specs.Views.{HoldsClient, HoldsSome, HoldsAll, without_client, with_client_alone, joined, leaves};
ghost use Rattle.lvm_turn.specs.Calls.{Continues, MayLeave, WasMissed, HasEntered, first_view};

use crate::pass::{Pass, View};
use crate::rule::{Compare, Merge, Opening, Ruled};
use crate::steps::{part, put_back, try_twice, wait_while};
use atomic_table::{Badge, Table};
use lvm_vol::Shown;
use std::alloc::Global;
use std::marker::{Brand, Model};
use std::mem::replace;
use std::snapshot::Snapshot;
use std::sync::Wait;

/// A lock that lends its value to one pass at a time.
///
/// Nothing is promised of who gets the turn next, or that anybody does.
pub struct Turn<V: Shown> {
    table: Table<Option<V>, View, Opening<V>, Ruled, Global>,
}

impl<V: Shown> Model for Turn<V> {
    ghost use Rattle.std.specs.Prelude.{◌≡◌};
    ghost use Rattle.lvm_turn.specs.Turns.{Opened};

    ghost Value = { Opened };

    ghost view = { λ t. record { table = t.table.shared.table_id; clients = t.table.shared.key.clients } };

    ghost invariant = { λ t. (t.table.shared.table_id.words ≡ 2) × (t.table.shared.table_id.slots ≡ 1) };
}

impl<V: Shown> Turn<V> {
    /// A turn over the value for the clients 1 to `clients`, and the first pass, which is outside, holds
    /// all of them and has seen the value. Where there is no memory, the value comes back. No other call
    /// takes memory.
    pub fn new(alloc: Global, value: V, clients: u32) -> Result<(Turn<V>, Pass), V>
        requires clients { 0 < clients }
        requires always { V.always value }
        ensures opened { IfOk result (λ made. made.0.clients ≡ clients) }
        ensures at { IfOk result (λ made. made.1.table ≡ made.0.table) }
        ensures knows { IfOk result (λ made. made.1.knows ≡ first_view V.tells V.past clients value) }
        ensures err { IfErr result (λ back. back ≡ value) }
    {
        let length = value.shown();
        let opening = Opening {
            clients,
            value: Snapshot::of(&value),
        };
        let Ok((table, mut seat)) = Table::vacant(alloc, &[1, 0], 1, &opening) else {
            return Err(value);
        };
        put_back(&table.shared, &mut seat, 1, 0, value);
        let pass = Pass {
            badge: seat.into_badge(),
            number: 2,
            length,
        };
        Ok((Turn { table }, pass))
    }

    /// The client goes over to a new pass, which has seen as much and knows the client's own entries.
    pub fn split(&self, pass: &mut Pass, client: u32) -> Pass
        requires at { pass.old.table ≡ self.now.table }
        requires outside { pass.old.knows.inside ≡ false }
        requires holds { HoldsClient pass.old.knows.clients client }
        ensures kept { pass.new ≡ record pass.old { knows = without_client client pass.old.knows } }
        ensures given { result ≡ record pass.old { knows = with_client_alone client pass.old.knows } }
    {
        let mut seat = replace(&mut pass.badge, Badge::blank()).into_seat();
        let other = part::<V, Brand>(&self.table.shared, &mut seat, client);
        pass.badge = seat.into_badge();
        Pass {
            badge: other.into_badge(),
            number: pass.number,
            length: pass.length,
        }
    }

    /// The pass takes in another, with its clients and their own entries. It knows the longer of the two
    /// fronts from then on, which both begin.
    pub fn join(&self, pass: &mut Pass, other: Pass)
        requires at { pass.old.table ≡ self.now.table }
        requires other_at { other.table ≡ self.now.table }
        requires outside { other.knows.inside ≡ false }
        ensures joined { pass.new ≡ record pass.old { knows = joined pass.old.knows other.knows } }
        ensures front { IsPrefixOf pass.old.knows.front pass.new.knows.front }
        ensures other_front { IsPrefixOf other.knows.front pass.new.knows.front }
    {
        let Pass {
            badge,
            number,
            length,
        } = other;
        let mut seat = replace(&mut pass.badge, Badge::blank()).into_seat();
        self.table
            .shared
            .join_seat::<Merge>(&mut seat, badge.into_seat());
        self.table.shared.load::<Compare>(&mut seat, 0);
        pass.badge = seat.into_badge();
        pass.number = pass.number.max(number);
        pass.length = pass.length.max(length);
    }

    /// Tries to take the turn, and never waits. The value's history begins with all that the pass had seen,
    /// and each of its clients has there exactly its own entries.
    ///
    /// None comes only where another pass held the turn when this one last looked, or has entered since
    /// this one looked before, or where the turn was taken 2^63 - 2 times.
    pub fn try_enter(&self, pass: &mut Pass) -> Option<V>
        requires at { pass.old.table ≡ self.now.table }
        requires outside { pass.old.knows.inside ≡ false }
        requires holds { HoldsSome pass.old.knows.clients }
        ensures at { pass.new.table ≡ pass.old.table }
        ensures value { IfSome result (λ value. Continues V.tells V.past V.always pass.old.knows value) }
        ensures entered { IfSome result (λ value. HasEntered pass.old.knows (V.tells value) pass.new.knows) }
        ensures none { IfNone result (WasMissed pass.old.knows pass.new.knows) }
    {
        let mut seat = replace(&mut pass.badge, Badge::blank()).into_seat();
        let (number, value) = try_twice(&self.table.shared, &mut seat, pass.number);
        pass.badge = seat.into_badge();
        pass.number = number;
        if let Some(value) = &value {
            pass.length = value.shown();
        }
        value
    }

    /// The value as `try_enter` answers it, once the pass has the turn. Nothing says when that is, nor that
    /// it comes.
    pub fn enter<R: Wait>(&self, rt: &R, pass: &mut Pass) -> V
        requires at { pass.old.table ≡ self.now.table }
        requires outside { pass.old.knows.inside ≡ false }
        requires holds { HoldsSome pass.old.knows.clients }
        ensures at { pass.new.table ≡ pass.old.table }
        ensures value { Continues V.tells V.past V.always pass.old.knows result }
        ensures entered { HasEntered pass.old.knows (V.tells result) pass.new.knows }
    {
        for _ in rt.forever() {
            if let Some(value) = self.try_enter(pass) {
                return value;
            }
            if pass.number % 2 == 1 {
                wait_while(rt, &self.table.shared, pass.number);
            }
        }
        unreachable!()
    }

    /// Gives the turn back with the value, and wakes one pass that parks. The value keeps what is fixed,
    /// no count fell, and its history is the one at entry, continued: what was added of requests is begun
    /// or taken by clients that the pass holds, or landed.
    pub fn leave(&self, pass: &mut Pass, value: V)
        requires at { pass.old.table ≡ self.now.table }
        requires inside { pass.old.knows.inside ≡ true }
        requires may { MayLeave V.tells V.past V.always pass.old.knows value }
        ensures { pass.new ≡ record pass.old { knows = leaves (V.tells value) pass.old.knows } }
    {
        let length = value.shown();
        let mut seat = replace(&mut pass.badge, Badge::blank()).into_seat();
        put_back(
            &self.table.shared,
            &mut seat,
            pass.number,
            pass.length,
            value,
        );
        pass.badge = seat.into_badge();
        pass.number += 1;
        pass.length = length;
    }

    /// Takes the value out, by the pass that holds all clients, so that no other is inside.
    pub fn close(self, pass: Pass) -> V
        requires at { pass.table ≡ self.table }
        requires outside { pass.knows.inside ≡ false }
        requires all { HoldsAll self.clients pass.knows.clients }
        ensures { Continues V.tells V.past V.always pass.knows result }
    {
        let Turn { table } = self;
        let Pass {
            badge,
            number: _,
            length: _,
        } = pass;
        let mut closed = table.close_with(badge.into_seat());
        let value = closed.take(0);
        closed.free();
        let Some(value) = value else { unreachable!() };
        value
    }
}
