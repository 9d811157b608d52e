//! The descriptor that is to be ready while a copy moves.
ghost use Rattle.std.specs.Prelude.{◌≡◌, ◌⊎◌, ◌↔◌, ◌&&◌, ◌==◌, not, IfErr, IfOk, IsTrue, None, Some};
ghost use Rattle.std.specs.List.{list_any};
ghost use Rattle.lvm_num.specs.declared.place.Pp.{Pp};
ghost use Rattle.lvm_num.specs.Descriptor.{IsLaidOut, IsValid, copies_of, is_pp};
ghost use Rattle.lvm_moved.specs.Moved.{MayStandOn, moved_descriptor};
ghost use Rattle.lvm_session.specs.declared.answers.OpenFault.TheVariants as denial;
ghost use Rattle.lvm_session.specs.Asking.{IsAwake};
ghost use Rattle.lvm_session.specs.Calls.{move_fault};
ghost use Rattle.lvm_session.specs.Fields.{core_of};
ghost use Rattle.lvm_keeps_events.specs.Opening.{IsApart};
ghost use Rattle.lvm_driver.specs.Moves.{AreApartFrom};

use lvm_core::Prepared;
use lvm_due::is_pp;
use lvm_keeps_events::below::move_fault;
use lvm_moved::moved_descriptor;
use lvm_num::{Descriptor, LvRow, Memory, Pp, copies_of, volume_of};
use lvm_session::{OpenFault, Session};
use std::alloc::Global;

// The descriptor in which the copy stands on the partition, with the bytes of its record.
fn prepared(
    alloc: Global,
    d: &Descriptor,
    lv: u16,
    lp: u32,
    number: u8,
    to: Pp,
) -> Result<Prepared, Memory>
    requires valid { IsValid d.now }
    requires may { MayStandOn d.now lv lp number to }
    ensures { IfOk result (λ next. next ≡ moved_descriptor d.now lv lp number to) }
{
    let next = moved_descriptor(alloc, d, lv, lp, number, to)?;
    Prepared::new(alloc, next)
}

/// The descriptor in which a copy stands on the partition to which it is to move.
///
/// # Errors
///
/// Those for which it doesn't begin to move, and `Memory` where there is none of them.
pub fn prepare_move(
    alloc: Global,
    session: &Session,
    lv: u16,
    lp: u32,
    number: u8,
    to: Pp,
) -> Result<Prepared, OpenFault>
    requires awake { IsAwake (core_of session.now) }
    requires apart { IsApart session.now.descriptor lv lp number to }
    ensures may { IfOk result (λ next. move_fault (core_of session.now) lv lp number to ≡ None) }
    ensures ready { IfOk result (λ next. next ≡ moved_descriptor session.now.descriptor lv lp number to) }
    ensures refused { IfErr result (λ why. (move_fault (core_of session.now) lv lp number to ≡ Some why) ⊎ ((move_fault (core_of session.now) lv lp number to ≡ None) × (why ≡ denial.Memory))) }
{
    match move_fault(session, lv, lp, number, to) {
        Some(why) => Err(why),
        None => match prepared(alloc, &session.descriptor, lv, lp, number, to) {
            Ok(next) => Ok(next),
            Err(Memory) => Err(OpenFault::Memory),
        },
    }
}

// Whether another of these copies than this one stands on the disk.
fn is_other_on(copies: &[Pp], from: Pp, disk: u16) -> bool
    ensures { result ≡ list_any (λ (p : Pp). not (is_pp p from) && p.disk == disk) copies.now }
{
    copies.iter().any(|pp| !is_pp(*pp, from) && pp.disk == disk)
}

// Whether none of these but the one of this number, from 1, stands on the disk.
fn are_apart_from(copies: &[Pp], number: u8, disk: u16) -> bool
    ensures { IsTrue result ↔ AreApartFrom copies.now number disk }
{
    if number == 0 {
        return true;
    }
    match copies.get(usize::from(number) - 1) {
        None => true,
        Some(from) => !is_other_on(copies, *from, disk),
    }
}

// So it is of the copies of a logical partition of the volume, which may not be there.
fn are_apart_in(row: &LvRow, lp: u32, number: u8, disk: u16) -> bool
    requires { IsLaidOut row.now }
    ensures { IsTrue result ↔ AreApartFrom (copies_of row.now lp) number disk }
{
    if lp < row.lps {
        are_apart_from(copies_of(row, lp), number, disk)
    } else {
        true
    }
}

/// Whether no copy of the logical partition but the one of this number, from 1, stands on the disk of the partition.
pub fn is_apart(d: &Descriptor, lv: u16, lp: u32, number: u8, to: Pp) -> bool
    requires { IsValid d.now }
    ensures { IsTrue result ↔ IsApart d.now lv lp number to }
{
    match volume_of(d, lv) {
        None => true,
        Some(row) => are_apart_in(row, lp, number, to.disk),
    }
}
