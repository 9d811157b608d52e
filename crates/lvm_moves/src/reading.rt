//! The copies that a read tries, in their order.
ghost use Rattle.std.specs.Prelude.{◌≡◌, ◌≤◌, ◌<◌, ◌++◌, ◌∷◌, [], All, IsTrue, length, map, slice_get};
ghost use Rattle.std.specs.Option.{option_map_or};
ghost use Rattle.lvm_num.specs.declared.place.Pp.{Pp};
ghost use Rattle.lvm_num.specs.Descriptor.{is_size};
ghost use Rattle.lvm_session.specs.Fields.{core_of};
ghost use Rattle.lvm_session.specs.Judging.{IsWithinVolume};
ghost use Rattle.lvm_session.specs.State.{state};
ghost use Rattle.lvm_session.specs.Events.{IsReading, copy_of, load_on, loads_of, target_at, usable_from};
ghost use Rattle.lvm_moves.specs.Choosing.{IsCopyThere, MayChoose};

use crate::aiming::target_at;
use arrayvec::ArrayVec;
use lvm_disk::Shelf;
use lvm_due::below::{copies_for, is_usable, policy_of};
use lvm_num::Pp;
use lvm_path::{Ask, Target};
use lvm_sched::read_order;
use lvm_session::Session;

/// The targets of a request, and for a read the numbers of the copies in their order.
#[derive(Drop)]
pub struct Chosen {
    pub targets: ArrayVec<Target, 4>,
    pub order: ArrayVec<u8, 3>,
}

fn load_on(session: &Session, disk: u16) -> u32
    requires { length session.now.flying.items ≤ 1024 }
    ensures { result ≡ load_on (core_of session.now) disk }
{
    session.flying.iter().filter(|row| row.disk == disk).count() as u32
}

fn load_at(session: &Session, copies: &[Pp], k: usize) -> u32
    requires { length session.now.flying.items ≤ 1024 }
    ensures { result ≡ option_map_or (λ (p : Pp). load_on (core_of session.now) p.disk) (slice_get copies.now k) 0 }
{
    match copies.get(k) {
        None => 0,
        Some(pp) => load_on(session, pp.disk),
    }
}

// How many transfers are out on the disks of three copies.
fn loads_of(session: &Session, copies: &[Pp]) -> [u32; 3]
    requires { length session.now.flying.items ≤ 1024 }
    ensures { result ≡ loads_of (core_of session.now) copies.now }
{
    [
        load_at(session, copies, 0),
        load_at(session, copies, 1),
        load_at(session, copies, 2),
    ]
}

// The number of a copy is added where it is usable.
fn number_if(session: &Session, pp: Pp, number: u8, numbers: &mut ArrayVec<u8, 3>)
    requires { length numbers.old.items < 3 }
    ensures { numbers.new.items ≡ numbers.old.items ++ usable_from (core_of session.now) number (pp ∷ []) }
{
    if is_usable(session, pp) {
        numbers.push(number);
    }
}

// The numbers, from 1, of the copies that are usable.
fn usable_of(session: &Session, copies: &[Pp]) -> ArrayVec<u8, 3>
    requires { length copies.now ≤ 3 }
    ensures { result.items ≡ usable_from (core_of session.now) 1 copies.now }
{
    let mut numbers = ArrayVec::new();
    for k in 0..copies.len() {
        number_if(session, copies[k], k as u8 + 1, &mut numbers);
    }
    numbers
}

// The copies of these numbers as targets.
fn targets_in<S: Shelf>(
    session: &Session,
    shelf: &S,
    ask: &Ask,
    copies: &[Pp],
    order: &[u8],
) -> ArrayVec<Target, 4>
    requires size { IsTrue (is_size session.now.descriptor.mib) }
    requires few { length order.now ≤ 3 }
    requires there { All (IsCopyThere (S.device shelf.now) copies.now) order.now }
    ensures { result.items ≡ map (λ n. target_at (state (S.device shelf.now) (core_of session.now)) ask.now (copy_of copies.now n)) order.now }
{
    let mut targets = ArrayVec::new();
    for number in order {
        targets.push(target_at(session, shelf, ask, copies[usize::from(*number) - 1]));
    }
    targets
}

/// The copies that a read tries, in the order of its volume's policy.
pub fn reading<S: Shelf>(session: &Session, shelf: &S, ask: &Ask) -> Chosen
    requires may { MayChoose (S.device shelf.now) (core_of session.now) }
    requires within { IsWithinVolume session.now.descriptor ask.now }
    ensures reads { IsReading (state (S.device shelf.now) (core_of session.now)) ask.now result.order.items result.targets.items }
    ensures few { length result.targets.items ≤ 3 }
{
    let copies = copies_for(session, ask);
    let usable = usable_of(session, copies);
    let last = session.last[usize::from(ask.lv())];
    let order = read_order(
        policy_of(session, ask),
        &usable,
        last,
        loads_of(session, copies),
    );
    let targets = targets_in(session, shelf, ask, copies, &order);
    Chosen { targets, order }
}
