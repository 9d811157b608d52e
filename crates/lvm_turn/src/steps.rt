//! The steps of a pass on its table.
ghost use Rattle.std.specs.Prelude.{◌≡◌, ◌≢◌, ◌+◌, ◌-◌, ◌%◌, ◌^◌, ◌<◌, ◌≤◌, ◌⊎◌, false, [], length, IfSome, IfNone};
ghost use Rattle.lvm_turn.specs.Views.{HoldsClient, without_client, with_client_alone, reads, enters, leaves};
ghost use Rattle.lvm_turn.specs.Calls.{Continues, MayPut, WasMissed};
ghost use Rattle.lvm_turn.specs.Steps.{IsOutsidePass, IsLent};
ghost use Rattle.lvm_turn.specs.Seats.{AtTurn, Stays};

use crate::pass::View;
use crate::rule::{Chosen, Look, Opening, Part, Release, Ruled, Stow, Tell, Try};
use lvm_vol::Shown;
use std::sync::Wait;

pub(crate) type Shared<V> = atomic_table::Shared<Option<V>, View, Opening<V>, Ruled>;

pub(crate) type Seat<V> = atomic_table::Seat<Option<V>, View>;

// From this number on nobody takes the turn, since word 0 would run over.
const LAST: u64 = u64::MAX - 1;

// One try, where word 0 is expected to be this even number. It answers what was read or written there,
// and the value where the turn was taken.
fn try_at<V: Shown>(shared: &Shared<V>, seat: &mut Seat<V>, even: u64) -> (u64, Option<V>)
    requires at { AtTurn shared.now.table_id seat.old }
    requires outside { IsOutsidePass seat.old.me.0 × (seat.old.me.1 ≡ []) }
    requires even { even % 2 ≡ 0 }
    requires seen { seat.old.me.0.number ≤ even }
    ensures same { Stays seat.old seat.new × (seat.new.me.1 ≡ []) }
    ensures number { (seat.old.me.0.number ≤ result.0) × (result.0 + 1 < 2 ^ 64) }
    ensures none { IfNone result.1 ((seat.new.me.0 ≡ reads result.0 seat.old.me.0) × ((result.0 ≢ even) ⊎ (result.0 ≡ 2 ^ 64 - 2))) }
    ensures some { IfSome result.1 (λ y. (result.0 ≡ even + 1) × (seat.new.me.0 ≡ enters (V.tells y) result.0 seat.old.me.0) × Continues V.tells V.past V.always seat.old.me.0 y) }
{
    if even == LAST {
        return (shared.load::<Look>(seat, 0), None);
    }
    let found = shared.compare_exchange::<Try>(seat, 0, even, even + 1);
    if found != even {
        return (found, None);
    }
    let value = shared.exchange(seat, 0, None);
    shared.load::<Stow>(seat, 0);
    (even + 1, value)
}

// At most two tries: a second one where the first found another even number.
pub(crate) fn try_twice<V: Shown>(
    shared: &Shared<V>,
    seat: &mut Seat<V>,
    number: u64,
) -> (u64, Option<V>)
    requires at { AtTurn shared.now.table_id seat.old }
    requires outside { IsOutsidePass seat.old.me.0 × (seat.old.me.1 ≡ []) }
    requires number { (number ≡ seat.old.me.0.number) × (number + 1 < 2 ^ 64) }
    ensures same { Stays seat.old seat.new × (seat.new.me.1 ≡ []) × (result.0 + 1 < 2 ^ 64) }
    ensures none { IfNone result.1 (WasMissed seat.old.me.0 seat.new.me.0 × (result.0 ≡ seat.new.me.0.number)) }
    ensures odd { IfSome result.1 (λ _. (result.0 % 2 ≡ 1) × (number < result.0)) }
    ensures some { IfSome result.1 (λ y. (seat.new.me.0 ≡ enters (V.tells y) result.0 seat.old.me.0) × Continues V.tells V.past V.always seat.old.me.0 y) }
{
    let (found, value) = try_at(shared, seat, number + number % 2);
    match value {
        None if found % 2 == 0 => try_at(shared, seat, found),
        value => (found, value),
    }
}

// The value goes back into the slot, and the length of its history into word 1. Then word 0 is even again,
// and one pass that parks there is woken.
pub(crate) fn put_back<V: Shown>(
    shared: &Shared<V>,
    seat: &mut Seat<V>,
    number: u64,
    count: u64,
    value: V,
)
    requires at { AtTurn shared.now.table_id seat.old }
    requires inside { IsLent seat.old.me.0 × (seat.old.me.1 ≡ []) }
    requires number { (number ≡ seat.old.me.0.number) × (number + 1 < 2 ^ 64) }
    requires count { count ≡ length seat.old.me.0.front }
    requires may { MayPut V.tells V.past V.always shared.now.key.clients seat.old.me.0 value }
    ensures same { Stays seat.old seat.new × (number + 2 < 2 ^ 64) }
    ensures left { (seat.new.me.0 ≡ leaves (V.tells value) seat.old.me.0) × (seat.new.me.1 ≡ []) }
{
    let told = value.shown();
    let filled = Some(value);
    shared.compare_exchange_with::<Tell>(seat, 1, count, told, &filled);
    let emptied = shared.exchange(seat, 0, filled);
    let None = emptied else { unreachable!() };
    shared.store::<Release>(seat, 0, number + 1);
    shared.wake_one(0);
}

// Waits while word 0 is this odd number. It may also return for no reason.
pub(crate) fn wait_while<V: Shown, R: Wait>(rt: &R, shared: &Shared<V>, number: u64)
    requires { shared.now.table_id.words ≡ 2 }
{
    let low = (number % (1 << 32)) as u32;
    shared.park(rt, 0, low);
}

// The chosen client goes over to a new seat.
pub(crate) fn part<V: Shown, C: Chosen>(
    shared: &Shared<V>,
    seat: &mut Seat<V>,
    client: u32,
) -> Seat<V>
    requires at { AtTurn shared.now.table_id seat.old }
    requires chosen { client ≡ C.client }
    requires outside { (seat.old.me.0.inside ≡ false) × (seat.old.me.1 ≡ []) }
    requires holds { HoldsClient seat.old.me.0.clients client }
    ensures same { Stays seat.old seat.new × (seat.new.me ≡ (without_client client seat.old.me.0, [])) }
    ensures other { (result.table_id ≡ seat.old.table_id) × (result.me ≡ (with_client_alone client seat.old.me.0, [])) }
{
    shared.split_seat::<Part<C>>(seat)
}
