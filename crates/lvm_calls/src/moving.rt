//! Why a copy doesn't move.
ghost use Rattle.std.specs.Prelude.{◌≡◌, ◌==◌, false, find, nat_lt};
ghost use Rattle.std.specs.List.{list_any};
ghost use Rattle.std.specs.Option.{option_copied, option_map_or};
ghost use Rattle.lvm_num.specs.declared.descriptor.LvRow.{LvRow};
ghost use Rattle.lvm_num.specs.declared.descriptor.PvRow.{PvRow};
ghost use Rattle.lvm_num.specs.Descriptor.{IsLaidOut, IsValid, member_of, partitions_used};
ghost use Rattle.lvm_session.specs.Fields.{core_of};
ghost use Rattle.lvm_session.specs.Judging.{is_usable};
ghost use Rattle.lvm_session.specs.Marks.{is_among};
ghost use Rattle.lvm_session.specs.Calls.{is_in_use, move_fault, move_fault_at, move_fault_in, move_fault_on};

use crate::ask::has_numbers;
use crate::copy::copy_at;
use lvm_due::{is_missing, is_pp, is_usable};
use lvm_num::{Descriptor, LvRow, Pp, PvRow, copies_of, volume_of};
use lvm_session::{OpenFault, Power, Session};

fn has_partition(map: &[Pp], pp: Pp) -> bool
    ensures { result ≡ is_among map.now pp }
{
    map.iter().any(|other| is_pp(pp, *other))
}

// Whether one of these volumes has the partition.
fn any_has(lvs: &[LvRow], pp: Pp) -> bool
    ensures { result ≡ list_any (λ (row : LvRow). is_among row.map pp) lvs.now }
{
    lvs.iter().any(|row| has_partition(row.map.as_slice(), pp))
}

fn is_used(d: &Descriptor, pp: Pp) -> bool
    ensures { result ≡ is_among (partitions_used d.now) pp }
{
    any_has(d.lvs.as_slice(), pp)
}

fn member_on(pvs: &[PvRow], disk: u16) -> Option<&PvRow>
    ensures { option_copied result ≡ find (λ (row : PvRow). row.disk == disk) pvs.now }
{
    pvs.iter().find(|row| row.disk == disk)
}

// Whether the member on its disk has the partition.
fn is_inside(d: &Descriptor, pp: Pp) -> bool
    ensures { result ≡ option_map_or (λ (row : PvRow). nat_lt pp.pp row.pps) (member_of d.now pp.disk) false }
{
    match member_on(d.pvs.as_slice(), pp.disk) {
        None => false,
        Some(row) => pp.pp < row.pps,
    }
}

// Whether a volume has the partition, or its member hasn't.
fn is_in_use(session: &Session, pp: Pp) -> bool
    ensures { result ≡ is_in_use (core_of session.now) pp }
{
    is_used(&session.descriptor, pp) || !is_inside(&session.descriptor, pp)
}

fn any_is_usable(session: &Session, copies: &[Pp]) -> bool
    ensures { result ≡ list_any (is_usable (core_of session.now)) copies.now }
{
    copies.iter().any(|pp| is_usable(session, *pp))
}

fn move_fault_at(session: &Session, to: Pp, copies: &[Pp]) -> Option<OpenFault>
    ensures { result ≡ move_fault_at (core_of session.now) to copies.now }
{
    if is_in_use(session, to) {
        Some(OpenFault::InUse)
    } else if is_missing(session, to.disk) {
        Some(OpenFault::Missing { disk: to.disk })
    } else if !any_is_usable(session, copies) {
        Some(OpenFault::NoFresh)
    } else if has_numbers(session) {
        None
    } else {
        Some(OpenFault::HistoryFull)
    }
}

fn move_fault_in(session: &Session, row: &LvRow, lp: u32, number: u8, to: Pp) -> Option<OpenFault>
    requires { IsLaidOut row.now }
    ensures { result ≡ move_fault_in (core_of session.now) row.now lp number to }
{
    if lp >= row.lps {
        return Some(OpenFault::OutOfRange);
    }
    let copies = copies_of(row, lp);
    match copy_at(copies, number) {
        None => Some(OpenFault::OutOfRange),
        Some(_) => move_fault_at(session, to, copies),
    }
}

fn move_fault_on(session: &Session, lv: u16, lp: u32, number: u8, to: Pp) -> Option<OpenFault>
    requires { IsValid session.now.descriptor }
    ensures { result ≡ move_fault_on (core_of session.now) lv lp number to }
{
    if session.copy.is_some() {
        return Some(OpenFault::Busy);
    }
    match volume_of(&session.descriptor, lv) {
        None => Some(OpenFault::NoVolume),
        Some(row) => move_fault_in(session, row, lp, number, to),
    }
}

/// Why a copy, from 1, of a logical partition, from 0, of a volume doesn't move to a partition, in the order of
/// `OpenFault`; None where it may. Memory is never a cause here.
pub fn move_fault(session: &Session, lv: u16, lp: u32, number: u8, to: Pp) -> Option<OpenFault>
    requires { IsValid session.now.descriptor }
    ensures { result ≡ move_fault (core_of session.now) lv lp number to }
{
    match session.power {
        Power::Dark => Some(OpenFault::Dark),
        Power::Off => Some(OpenFault::Off),
        Power::On | Power::Stuck => move_fault_on(session, lv, lp, number, to),
    }
}
